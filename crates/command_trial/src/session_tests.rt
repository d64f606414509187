//! The command `session` over objects in memory: each request with its answer, byte for byte, however the bytes are cut.

use crate::tests::run_on;
use std::alloc::{AllocError, Global};
use std::marker::Sync;
use std::sync::Wait;
use std::test::Fail;
use std::thread::Threads;

/// A conversation, an exchange to a line: what is asked, by its method and target; its body; and what has to be answered: the
/// status, the field past the length, the body.
const EXCHANGES: &str =
    r#"POST /api/ipam/prefixes/|{"prefix":"10.0.0.0/24"}|201 Created|Ipam-Place: 0|{"children":0,"depth":0,"description":"","family":4,"id":1,"is_pool":false,"mark_utilized":false,"prefix":"10.0.0.0/24","role":null,"status":{"label":"Active","value":"active"},"vrf":null}
GET /api/ipam/prefixes/1/||200 OK|Ipam-Place: 1|{"children":0,"depth":0,"description":"","family":4,"id":1,"is_pool":false,"mark_utilized":false,"prefix":"10.0.0.0/24","role":null,"status":{"label":"Active","value":"active"},"vrf":null}
POST /api/ipam/prefixes/|{"prefix":"10.0.0.0/24"}|400 Bad Request|Ipam-Place: 1|{"code":"duplicate","detail":"coincides with 1"}
GET /api/ipam/prefixes/9/||404 Not Found|Ipam-Place: 1|{"code":"not_found","detail":"prefixes 9 is not there"}
POST /api/ipam/vrfs/|{"name":"red"}|201 Created|Ipam-Place: 1|{"description":"","enforce_unique":true,"id":1,"name":"red","rd":null}
POST /api/ipam/vrfs/|{"name":"blue","rd":"65000:1","enforce_unique":false,"description":"the \"lab\""}|201 Created|Ipam-Place: 2|{"description":"the \"lab\"","enforce_unique":false,"id":2,"name":"blue","rd":"65000:1"}
POST /api/ipam/vrfs/|{"name":"green","rd":"65000:1"}|400 Bad Request|Ipam-Place: 3|{"code":"rd_taken","detail":"the rd is that of 2"}
POST /api/ipam/prefixes/|{"prefix":"10.0.0.0/25","vrf":1,"status":"reserved","is_pool":true,"mark_utilized":true}|201 Created|Ipam-Place: 3|{"children":0,"depth":0,"description":"","family":4,"id":2,"is_pool":true,"mark_utilized":true,"prefix":"10.0.0.0/25","role":null,"status":{"label":"Reserved","value":"reserved"},"vrf":1}
POST /api/ipam/prefixes/|{"prefix":"10.0.0.0/16","status":"container"}|201 Created|Ipam-Place: 4|{"children":1,"depth":0,"description":"","family":4,"id":3,"is_pool":false,"mark_utilized":false,"prefix":"10.0.0.0/16","role":null,"status":{"label":"Container","value":"container"},"vrf":null}
GET /api/ipam/prefixes/1/||200 OK|Ipam-Place: 5|{"children":0,"depth":1,"description":"","family":4,"id":1,"is_pool":false,"mark_utilized":false,"prefix":"10.0.0.0/24","role":null,"status":{"label":"Active","value":"active"},"vrf":null}
GET /api/ipam/prefixes/||200 OK|Ipam-Place: 5|{"count":3,"next":null,"previous":null,"results":[{"children":0,"depth":1,"description":"","family":4,"id":1,"is_pool":false,"mark_utilized":false,"prefix":"10.0.0.0/24","role":null,"status":{"label":"Active","value":"active"},"vrf":null},{"children":0,"depth":0,"description":"","family":4,"id":2,"is_pool":true,"mark_utilized":true,"prefix":"10.0.0.0/25","role":null,"status":{"label":"Reserved","value":"reserved"},"vrf":1},{"children":1,"depth":0,"description":"","family":4,"id":3,"is_pool":false,"mark_utilized":false,"prefix":"10.0.0.0/16","role":null,"status":{"label":"Container","value":"container"},"vrf":null}]}
GET /api/ipam/vrfs/||200 OK|Ipam-Place: 5|{"count":2,"next":null,"previous":null,"results":[{"description":"","enforce_unique":true,"id":1,"name":"red","rd":null},{"description":"the \"lab\"","enforce_unique":false,"id":2,"name":"blue","rd":"65000:1"}]}
GET /api/ipam/vrfs/2/||200 OK|Ipam-Place: 5|{"description":"the \"lab\"","enforce_unique":false,"id":2,"name":"blue","rd":"65000:1"}
GET /api/ipam/vrfs/4294967295/||404 Not Found|Ipam-Place: 5|{"code":"not_found","detail":"vrfs 4294967295 is not there"}
POST /api/ipam/prefixes/|{"prefix":"10.0.0.1/24"}|400 Bad Request||{"code":"host_bits","detail":"host bits are set, the prefix is 10.0.0.0/24"}
POST /api/ipam/prefixes/|{}|400 Bad Request||{"code":"field","detail":"prefix is missing or malformed"}
POST /api/ipam/prefixes/|[]|400 Bad Request||{"code":"bad_json","detail":"the body is not the JSON that is asked for"}
POST /api/ipam/prefixes/||400 Bad Request||{"code":"bad_json","detail":"the body is not the JSON that is asked for"}
POST /api/ipam/vrfs/|{"slug":5}|400 Bad Request||{"code":"field","detail":"name is missing or malformed"}
PUT /api/ipam/vrfs/||405 Method Not Allowed|Allow: GET, POST|{"code":"method","detail":"the path does not have this method"}
DELETE /api/ipam/vrfs/1/||409 Conflict|Ipam-Place: 5|{"code":"in_use","detail":"named by prefixes 2"}
GET /api/ipam/prefixes/?limit=2||200 OK|Ipam-Place: 5|{"count":3,"next":"/api/ipam/prefixes/?limit=2&offset=2","previous":null,"results":[{"children":0,"depth":1,"description":"","family":4,"id":1,"is_pool":false,"mark_utilized":false,"prefix":"10.0.0.0/24","role":null,"status":{"label":"Active","value":"active"},"vrf":null},{"children":0,"depth":0,"description":"","family":4,"id":2,"is_pool":true,"mark_utilized":true,"prefix":"10.0.0.0/25","role":null,"status":{"label":"Reserved","value":"reserved"},"vrf":1}]}
GET /api/ipam/prefixes/01/||404 Not Found||{"code":"no_route","detail":"no such path"}
PATCH /api/ipam/roles/||405 Method Not Allowed|Allow: GET, POST|{"code":"method","detail":"the path does not have this method"}
POST /api/ipam/prefixes/|{"prefix":"10.3.0.0/16","vrf":9}|400 Bad Request|Ipam-Place: 5|{"code":"no_such","detail":"vrfs 9 is not there"}
POST /api/ipam/prefixes/|{"prefix":"10.3.0.0/16","role":4}|400 Bad Request|Ipam-Place: 5|{"code":"no_such","detail":"roles 4 is not there"}
POST /api/ipam/prefixes/|{"prefix":"0.0.0.0/0"}|400 Bad Request|Ipam-Place: 5|{"code":"zero_mask","detail":"a mask of length 0 is refused"}
POST /api/ipam/prefixes/|{"prefix":"2001:DB8::/32"}|201 Created|Ipam-Place: 5|{"children":0,"depth":0,"description":"","family":6,"id":4,"is_pool":false,"mark_utilized":false,"prefix":"2001:db8::/32","role":null,"status":{"label":"Active","value":"active"},"vrf":null}
POST /api/ipam/prefixes/|{"prefix":"10.9.0.0/16","x":[1,{"y":null}],"prefix":"10.1.0.0/16"}|201 Created|Ipam-Place: 6|{"children":0,"depth":0,"description":"","family":4,"id":5,"is_pool":false,"mark_utilized":false,"prefix":"10.1.0.0/16","role":null,"status":{"label":"Active","value":"active"},"vrf":null}
POST /api/ipam/prefixes/|{"prefix":"10.2.0.0/16","vrf":null,"role":null}|201 Created|Ipam-Place: 7|{"children":0,"depth":0,"description":"","family":4,"id":6,"is_pool":false,"mark_utilized":false,"prefix":"10.2.0.0/16","role":null,"status":{"label":"Active","value":"active"},"vrf":null}
POST /api/ipam/prefixes/|{"prefix":"10.3.0.0/16","vrf":1.0}|400 Bad Request||{"code":"field","detail":"vrf is missing or malformed"}
POST /api/ipam/prefixes/|{"prefix":"10.3.0.0/16","description":null}|400 Bad Request||{"code":"field","detail":"description is missing or malformed"}
POST /api/ipam/prefixes/|{"prefix":"10.0.0.1/24","vrf":0}|400 Bad Request||{"code":"host_bits","detail":"host bits are set, the prefix is 10.0.0.0/24"}
POST /api/ipam/vrfs/|{"name":"😀😀😀😀😀😀😀😀😀😀😀😀😀😀😀😀😀😀😀😀😀😀😀😀😀😀😀😀😀😀😀😀😀😀😀😀😀😀😀😀😀😀😀😀😀😀😀😀😀😀😀😀😀😀😀😀😀😀😀😀😀😀😀😀😀😀😀😀😀😀😀😀😀😀😀😀😀😀😀😀😀😀😀😀😀😀😀😀😀😀😀😀😀😀😀😀😀😀😀😀"}|201 Created|Ipam-Place: 8|{"description":"","enforce_unique":true,"id":3,"name":"😀😀😀😀😀😀😀😀😀😀😀😀😀😀😀😀😀😀😀😀😀😀😀😀😀😀😀😀😀😀😀😀😀😀😀😀😀😀😀😀😀😀😀😀😀😀😀😀😀😀😀😀😀😀😀😀😀😀😀😀😀😀😀😀😀😀😀😀😀😀😀😀😀😀😀😀😀😀😀😀😀😀😀😀😀😀😀😀😀😀😀😀😀😀😀😀😀😀😀😀","rd":null}
POST /api/ipam/vrfs/|{"name":"a\u0007"}|400 Bad Request||{"code":"field","detail":"name is missing or malformed"}
PATCH /api/ipam/prefixes/1/|{"status":"deprecated","vrf":2}|200 OK|Ipam-Place: 9|{"children":0,"depth":0,"description":"","family":4,"id":1,"is_pool":false,"mark_utilized":false,"prefix":"10.0.0.0/24","role":null,"status":{"label":"Deprecated","value":"deprecated"},"vrf":2}
PATCH /api/ipam/prefixes/5/|{"prefix":"10.2.0.0/16"}|400 Bad Request|Ipam-Place: 10|{"code":"duplicate","detail":"coincides with 6"}
PATCH /api/ipam/vrfs/2/|{"rd":""}|200 OK|Ipam-Place: 10|{"description":"the \"lab\"","enforce_unique":false,"id":2,"name":"blue","rd":null}
PATCH /api/ipam/vrfs/2/|{"enforce_unique":null}|400 Bad Request||{"code":"field","detail":"enforce_unique is missing or malformed"}
GET /api/ipam/prefixes/?status=active&limit=2&offset=2||200 OK|Ipam-Place: 11|{"count":3,"next":null,"previous":"/api/ipam/prefixes/?status=active&limit=2&offset=0","results":[{"children":0,"depth":0,"description":"","family":4,"id":6,"is_pool":false,"mark_utilized":false,"prefix":"10.2.0.0/16","role":null,"status":{"label":"Active","value":"active"},"vrf":null}]}
GET /api/ipam/prefixes/?limit=x||400 Bad Request||{"code":"field","detail":"limit is missing or malformed"}
DELETE /api/ipam/prefixes/1/||204 No Content|Ipam-Place: 11|
DELETE /api/ipam/prefixes/1/||404 Not Found|Ipam-Place: 12|{"code":"not_found","detail":"prefixes 1 is not there"}
HEAD /api/ipam/vrfs/3/||405 Method Not Allowed|Allow: GET, PATCH, DELETE|{"code":"method","detail":"the path does not have this method"}
GET /api/ipam/vrfs/1/||200 OK|Ipam-Place: 12|{"description":"","enforce_unique":true,"id":1,"name":"red","rd":null}"#;

/// Refusals of what is not there, changes that are refused and the one that changes nothing, on their own register.
const CHANGES: &str =
    r#"GET /api/ipam/prefixes/?limit=2||200 OK|Ipam-Place: 0|{"count":0,"next":null,"previous":null,"results":[]}
GET /api/ipam/prefixes/9/||404 Not Found|Ipam-Place: 0|{"code":"not_found","detail":"prefixes 9 is not there"}
PATCH /api/ipam/prefixes/9/|{"status":5}|400 Bad Request||{"code":"field","detail":"status is missing or malformed"}
PATCH /api/ipam/prefixes/9/|{"status":"active"}|404 Not Found|Ipam-Place: 0|{"code":"not_found","detail":"prefixes 9 is not there"}
GET /api/ipam/prefixes/0/||404 Not Found||{"code":"no_route","detail":"no such path"}
PUT /api/ipam/prefixes/9/||405 Method Not Allowed|Allow: GET, PATCH, DELETE|{"code":"method","detail":"the path does not have this method"}
POST /api/ipam/vrfs/|{"name":"red"}|201 Created|Ipam-Place: 0|{"description":"","enforce_unique":true,"id":1,"name":"red","rd":null}
POST /api/ipam/vrfs/|{"name":"blue","enforce_unique":false}|201 Created|Ipam-Place: 1|{"description":"","enforce_unique":false,"id":2,"name":"blue","rd":null}
POST /api/ipam/prefixes/|{"prefix":"10.0.0.0/24","vrf":2}|201 Created|Ipam-Place: 2|{"children":0,"depth":0,"description":"","family":4,"id":1,"is_pool":false,"mark_utilized":false,"prefix":"10.0.0.0/24","role":null,"status":{"label":"Active","value":"active"},"vrf":2}
POST /api/ipam/prefixes/|{"prefix":"10.0.0.0/24"}|201 Created|Ipam-Place: 3|{"children":0,"depth":0,"description":"","family":4,"id":2,"is_pool":false,"mark_utilized":false,"prefix":"10.0.0.0/24","role":null,"status":{"label":"Active","value":"active"},"vrf":null}
PATCH /api/ipam/prefixes/1/|{"vrf":null}|400 Bad Request|Ipam-Place: 4|{"code":"duplicate","detail":"coincides with 2"}
PATCH /api/ipam/prefixes/1/|{}|200 OK|Ipam-Place: 4|{"children":0,"depth":0,"description":"","family":4,"id":1,"is_pool":false,"mark_utilized":false,"prefix":"10.0.0.0/24","role":null,"status":{"label":"Active","value":"active"},"vrf":2}
PATCH /api/ipam/prefixes/2/|{"vrf":2}|200 OK|Ipam-Place: 5|{"children":0,"depth":0,"description":"","family":4,"id":2,"is_pool":false,"mark_utilized":false,"prefix":"10.0.0.0/24","role":null,"status":{"label":"Active","value":"active"},"vrf":2}
PATCH /api/ipam/vrfs/2/|{"enforce_unique":true}|400 Bad Request|Ipam-Place: 6|{"code":"coincide","detail":"prefixes 1 and 2 coincide"}
GET /api/ipam/vrfs/2/||200 OK|Ipam-Place: 6|{"description":"","enforce_unique":false,"id":2,"name":"blue","rd":null}
POST /api/ipam/prefixes/|{"prefix":"10.1.0.0/16"}|201 Created|Ipam-Place: 6|{"children":0,"depth":0,"description":"","family":4,"id":3,"is_pool":false,"mark_utilized":false,"prefix":"10.1.0.0/16","role":null,"status":{"label":"Active","value":"active"},"vrf":null}
POST /api/ipam/prefixes/|{"prefix":"10.2.0.0/16","vrf":1}|201 Created|Ipam-Place: 7|{"children":0,"depth":0,"description":"","family":4,"id":4,"is_pool":false,"mark_utilized":false,"prefix":"10.2.0.0/16","role":null,"status":{"label":"Active","value":"active"},"vrf":1}
DELETE /api/ipam/vrfs/1/||409 Conflict|Ipam-Place: 8|{"code":"in_use","detail":"named by prefixes 4"}"#;

/// RIRs, roles, aggregates, ranges and addresses, on their own register.
const KINDS: &str =
    r#"POST /api/ipam/rirs/|{"name":"ARIN","slug":"arin"}|201 Created|Ipam-Place: 0|{"description":"","id":1,"is_private":false,"name":"ARIN","slug":"arin"}
POST /api/ipam/rirs/|{"name":"ARIN","slug":"other"}|400 Bad Request|Ipam-Place: 1|{"code":"name_taken","detail":"the name is that of 1"}
POST /api/ipam/rirs/|{"name":"other","slug":"arin"}|400 Bad Request|Ipam-Place: 1|{"code":"slug_taken","detail":"the slug is that of 1"}
POST /api/ipam/rirs/|{"name":"other"}|400 Bad Request||{"code":"field","detail":"slug is missing or malformed"}
POST /api/ipam/aggregates/|{"prefix":"10.0.0.0/8","rir":1}|201 Created|Ipam-Place: 1|{"description":"","family":4,"id":1,"prefix":"10.0.0.0/8","rir":1}
POST /api/ipam/aggregates/|{"prefix":"10.1.0.0/16","rir":1}|400 Bad Request|Ipam-Place: 2|{"code":"aggregate_overlap","detail":"overlaps aggregate 1"}
POST /api/ipam/aggregates/|{"prefix":"11.0.0.0/8","rir":9}|400 Bad Request|Ipam-Place: 2|{"code":"no_such","detail":"rirs 9 is not there"}
PATCH /api/ipam/aggregates/1/|{"rir":null}|400 Bad Request||{"code":"field","detail":"rir is missing or malformed"}
GET /api/ipam/aggregates/?rir_id=1&limit=1||200 OK|Ipam-Place: 2|{"count":1,"next":null,"previous":null,"results":[{"description":"","family":4,"id":1,"prefix":"10.0.0.0/8","rir":1}]}
GET /api/ipam/aggregates/?family=6||200 OK|Ipam-Place: 2|{"count":0,"next":null,"previous":null,"results":[]}
DELETE /api/ipam/rirs/1/||409 Conflict|Ipam-Place: 2|{"code":"in_use","detail":"named by aggregates 1"}
PATCH /api/ipam/rirs/1/|{}|200 OK|Ipam-Place: 2|{"description":"","id":1,"is_private":false,"name":"ARIN","slug":"arin"}
GET /api/ipam/rirs/1/||200 OK|Ipam-Place: 3|{"description":"","id":1,"is_private":false,"name":"ARIN","slug":"arin"}
POST /api/ipam/roles/|{"name":"lan","slug":"lan"}|201 Created|Ipam-Place: 3|{"description":"","id":1,"name":"lan","slug":"lan","weight":1000}
POST /api/ipam/prefixes/|{"prefix":"10.0.0.0/24"}|201 Created|Ipam-Place: 4|{"children":0,"depth":0,"description":"","family":4,"id":1,"is_pool":false,"mark_utilized":false,"prefix":"10.0.0.0/24","role":null,"status":{"label":"Active","value":"active"},"vrf":null}
POST /api/ipam/prefixes/|{"prefix":"10.0.1.0/24"}|201 Created|Ipam-Place: 5|{"children":0,"depth":0,"description":"","family":4,"id":2,"is_pool":false,"mark_utilized":false,"prefix":"10.0.1.0/24","role":null,"status":{"label":"Active","value":"active"},"vrf":null}
POST /api/ipam/prefixes/|{"prefix":"10.0.2.0/24"}|201 Created|Ipam-Place: 6|{"children":0,"depth":0,"description":"","family":4,"id":3,"is_pool":false,"mark_utilized":false,"prefix":"10.0.2.0/24","role":null,"status":{"label":"Active","value":"active"},"vrf":null}
POST /api/ipam/prefixes/|{"prefix":"10.0.3.0/24","role":1}|201 Created|Ipam-Place: 7|{"children":0,"depth":0,"description":"","family":4,"id":4,"is_pool":false,"mark_utilized":false,"prefix":"10.0.3.0/24","role":1,"status":{"label":"Active","value":"active"},"vrf":null}
POST /api/ipam/ip-ranges/|{"start_address":"10.0.0.10/24","end_address":"10.0.0.19/24","role":1}|201 Created|Ipam-Place: 8|{"description":"","end_address":"10.0.0.19/24","family":4,"id":1,"mark_populated":false,"mark_utilized":false,"role":1,"size":10,"start_address":"10.0.0.10/24","status":{"label":"Active","value":"active"},"vrf":null}
DELETE /api/ipam/roles/1/||204 No Content|Ipam-Place: 9|
GET /api/ipam/prefixes/4/||200 OK|Ipam-Place: 10|{"children":0,"depth":0,"description":"","family":4,"id":4,"is_pool":false,"mark_utilized":false,"prefix":"10.0.3.0/24","role":null,"status":{"label":"Active","value":"active"},"vrf":null}
GET /api/ipam/ip-ranges/1/||200 OK|Ipam-Place: 10|{"description":"","end_address":"10.0.0.19/24","family":4,"id":1,"mark_populated":false,"mark_utilized":false,"role":null,"size":10,"start_address":"10.0.0.10/24","status":{"label":"Active","value":"active"},"vrf":null}
POST /api/ipam/ip-ranges/|{"start_address":"10.0.0.19/24","end_address":"10.0.0.29/24"}|400 Bad Request|Ipam-Place: 10|{"code":"range_overlap","detail":"overlaps range 1"}
POST /api/ipam/ip-ranges/|{"start_address":"10.0.0.30/24","end_address":"2001:db8::1/64"}|400 Bad Request|Ipam-Place: 10|{"code":"range_family","detail":"start and end differ in family"}
POST /api/ipam/ip-ranges/|{"start_address":"10.0.0.30/24","end_address":"10.0.0.39"}|400 Bad Request|Ipam-Place: 10|{"code":"range_mask","detail":"start and end differ in mask"}
POST /api/ipam/ip-ranges/|{"start_address":"10.0.0.30/24","end_address":"10.0.0.30/24"}|400 Bad Request|Ipam-Place: 10|{"code":"range_order","detail":"the end must be greater than the start"}
POST /api/ipam/ip-ranges/|{"start_address":"2001:db8::/64","end_address":"2001:db8::ffff:ffff/64"}|400 Bad Request|Ipam-Place: 10|{"code":"range_size","detail":"a range has at most 4294967295 addresses"}
POST /api/ipam/ip-ranges/|{"start_address":"2001:db8::/64","end_address":"2001:db8::ffff:fffe/64"}|201 Created|Ipam-Place: 10|{"description":"","end_address":"2001:db8::ffff:fffe/64","family":6,"id":2,"mark_populated":false,"mark_utilized":false,"role":null,"size":4294967295,"start_address":"2001:db8::/64","status":{"label":"Active","value":"active"},"vrf":null}
GET /api/ipam/ip-ranges/?contains=10.0.0.12/30||200 OK|Ipam-Place: 11|{"count":1,"next":null,"previous":null,"results":[{"description":"","end_address":"10.0.0.19/24","family":4,"id":1,"mark_populated":false,"mark_utilized":false,"role":null,"size":10,"start_address":"10.0.0.10/24","status":{"label":"Active","value":"active"},"vrf":null}]}
POST /api/ipam/ip-addresses/|{"address":"10.0.0.1/24","role":"vip"}|201 Created|Ipam-Place: 11|{"address":"10.0.0.1/24","description":"","dns_name":"","family":4,"id":1,"role":{"label":"VIP","value":"vip"},"status":{"label":"Active","value":"active"},"vrf":null}
POST /api/ipam/ip-addresses/|{"address":"10.0.0.1/24","role":"vip"}|201 Created|Ipam-Place: 12|{"address":"10.0.0.1/24","description":"","dns_name":"","family":4,"id":2,"role":{"label":"VIP","value":"vip"},"status":{"label":"Active","value":"active"},"vrf":null}
PATCH /api/ipam/ip-addresses/1/|{"role":""}|400 Bad Request|Ipam-Place: 13|{"code":"duplicate","detail":"coincides with 2"}
POST /api/ipam/ip-addresses/|{"address":"10.0.0.1/16"}|400 Bad Request|Ipam-Place: 13|{"code":"duplicate","detail":"coincides with 1"}
POST /api/ipam/ip-addresses/|{"address":"10.0.0.2/24","status":"slaac"}|400 Bad Request|Ipam-Place: 13|{"code":"slaac_family","detail":"slaac is for IPv6 only"}
POST /api/ipam/ip-addresses/|{"address":"10.0.0.2/24","dns_name":"a..b"}|400 Bad Request|Ipam-Place: 13|{"code":"dns_name","detail":"not a DNS name"}
POST /api/ipam/ip-addresses/|{"address":"2001:DB8::1/64","status":"slaac","dns_name":"A.Example."}|201 Created|Ipam-Place: 13|{"address":"2001:db8::1/64","description":"","dns_name":"a.example.","family":6,"id":3,"role":null,"status":{"label":"SLAAC","value":"slaac"},"vrf":null}
GET /api/ipam/ip-addresses/?dns_name=A.EXAMPLE.&limit=1||200 OK|Ipam-Place: 14|{"count":1,"next":null,"previous":null,"results":[{"address":"2001:db8::1/64","description":"","dns_name":"a.example.","family":6,"id":3,"role":null,"status":{"label":"SLAAC","value":"slaac"},"vrf":null}]}
GET /api/ipam/ip-addresses/?parent=10.0.0.0/24&role=vip&limit=1||200 OK|Ipam-Place: 14|{"count":2,"next":"/api/ipam/ip-addresses/?role=vip&parent=10.0.0.0%2F24&limit=1&offset=1","previous":null,"results":[{"address":"10.0.0.1/24","description":"","dns_name":"","family":4,"id":1,"role":{"label":"VIP","value":"vip"},"status":{"label":"Active","value":"active"},"vrf":null}]}
GET /api/ipam/ip-addresses/?role=||400 Bad Request||{"code":"field","detail":"role is missing or malformed"}
POST /api/ipam/vrfs/|{"name":"red"}|201 Created|Ipam-Place: 14|{"description":"","enforce_unique":true,"id":1,"name":"red","rd":null}
PATCH /api/ipam/ip-addresses/2/|{"vrf":1,"role":null}|200 OK|Ipam-Place: 15|{"address":"10.0.0.1/24","description":"","dns_name":"","family":4,"id":2,"role":null,"status":{"label":"Active","value":"active"},"vrf":1}
DELETE /api/ipam/vrfs/1/||409 Conflict|Ipam-Place: 16|{"code":"in_use","detail":"named by ip-addresses 2"}
PATCH /api/ipam/ip-ranges/1/|{"end_address":"10.0.0.9"}|400 Bad Request|Ipam-Place: 16|{"code":"range_mask","detail":"start and end differ in mask"}
DELETE /api/ipam/ip-ranges/1/||204 No Content|Ipam-Place: 16|
DELETE /api/ipam/ip-addresses/2/||204 No Content|Ipam-Place: 17|
DELETE /api/ipam/aggregates/1/||204 No Content|Ipam-Place: 18|
DELETE /api/ipam/rirs/1/||204 No Content|Ipam-Place: 19|"#;

/// A part of a line. If there is none, the line is wrong, and the test fails as for lack of memory.
pub(crate) fn part(line: &str, index: usize) -> Result<&str, AllocError> {
    line.split('|').nth(index).ok_or(AllocError)
}

/// The answer to bytes that end inside a request.
const CUT_SHORT: &str =
    "HTTP/1.1 400 Bad Request\r\nContent-Type: application/json\r\nContent-Length: 60\r\nConnection: close\r\n\r\n{\"code\":\"bad_head\",\"detail\":\"the request could not be read\"}";

/// Puts a text at the end.
fn put(out: &mut Vec<u8>, text: &str) -> Result<(), AllocError> {
    out.extend_from_slice(text.as_bytes())
}

/// Puts a field on its own line, if there is one.
fn put_field(out: &mut Vec<u8>, field: &str) -> Result<(), AllocError> {
    if field.is_empty() {
        return Ok(());
    }
    put(out, field)?;
    put(out, "\r\n")
}

/// The length of a body, if there is one.
fn put_length(alloc: Global, out: &mut Vec<u8>, body: &str) -> Result<(), AllocError> {
    if body.is_empty() {
        return Ok(());
    }
    let length = format!(in alloc; "Content-Length: {}", body.len())?;
    put_field(out, &length)
}

/// The request of an exchange, as a usual client sends it.
pub(crate) fn put_request(
    alloc: Global,
    out: &mut Vec<u8>,
    exchange: &str,
) -> Result<(), AllocError> {
    let body = part(exchange, 1)?;
    let fields =
        " HTTP/1.1\r\nHost: 127.0.0.1:8080\r\nUser-Agent: curl/8.5.0\r\nAccept: */*\r\nAuthorization: Token 0123\r\n";
    put(out, part(exchange, 0)?)?;
    put(out, fields)?;
    put_length(alloc, out, body)?;
    put(out, "\r\n")?;
    put(out, body)
}

/// The fields that describe a body, if there is one.
fn put_size(alloc: Global, out: &mut Vec<u8>, body: &str) -> Result<(), AllocError> {
    if body.is_empty() {
        return Ok(());
    }
    let length = format!(in alloc; "{}", body.len())?;
    put(out, "Content-Type: application/json\r\nContent-Length: ")?;
    put(out, &length)?;
    put(out, "\r\n")
}

/// The answer of an exchange, which leaves the connection open. That to HEAD describes a body and sends none.
pub(crate) fn put_answer(
    alloc: Global,
    out: &mut Vec<u8>,
    exchange: &str,
) -> Result<(), AllocError> {
    put(out, "HTTP/1.1 ")?;
    put(out, part(exchange, 2)?)?;
    put(out, "\r\n")?;
    put_size(alloc, out, part(exchange, 4)?)?;
    put_field(out, part(exchange, 3)?)?;
    put(out, "\r\n")?;
    if exchange.starts_with("HEAD ") {
        return Ok(());
    }
    put(out, part(exchange, 4)?)
}

/// All requests of a conversation, and all answers.
fn conversation(alloc: Global, exchanges: &str) -> Result<(Vec<u8>, Vec<u8>), AllocError> {
    let mut input = Vec::new(alloc);
    let mut output = Vec::new(alloc);
    for exchange in exchanges.lines() {
        put_request(alloc, &mut input, exchange)?;
        put_answer(alloc, &mut output, exchange)?;
    }
    Ok((input, output))
}

/// The first request, and its answer.
fn opening(alloc: Global) -> Result<(Vec<u8>, Vec<u8>), AllocError> {
    let exchange = EXCHANGES.lines().next().unwrap_or("");
    let mut input = Vec::new(alloc);
    let mut output = Vec::new(alloc);
    put_request(alloc, &mut input, exchange)?;
    put_answer(alloc, &mut output, exchange)?;
    Ok((input, output))
}

/// A VRF that does not enforce, with two prefixes and two addresses that coincide: the prefixes are named first. The register is its own.
const ENFORCING: &str =
    r#"POST /api/ipam/vrfs/|{"name":"red","enforce_unique":false}|201 Created|Ipam-Place: 0|{"description":"","enforce_unique":false,"id":1,"name":"red","rd":null}
POST /api/ipam/ip-addresses/|{"address":"10.0.0.1/24","vrf":1}|201 Created|Ipam-Place: 1|{"address":"10.0.0.1/24","description":"","dns_name":"","family":4,"id":1,"role":null,"status":{"label":"Active","value":"active"},"vrf":1}
POST /api/ipam/ip-addresses/|{"address":"10.0.0.1/24","vrf":1}|201 Created|Ipam-Place: 2|{"address":"10.0.0.1/24","description":"","dns_name":"","family":4,"id":2,"role":null,"status":{"label":"Active","value":"active"},"vrf":1}
POST /api/ipam/prefixes/|{"prefix":"10.0.0.0/24","vrf":1}|201 Created|Ipam-Place: 3|{"children":0,"depth":0,"description":"","family":4,"id":1,"is_pool":false,"mark_utilized":false,"prefix":"10.0.0.0/24","role":null,"status":{"label":"Active","value":"active"},"vrf":1}
POST /api/ipam/prefixes/|{"prefix":"10.0.0.0/24","vrf":1}|201 Created|Ipam-Place: 4|{"children":0,"depth":0,"description":"","family":4,"id":2,"is_pool":false,"mark_utilized":false,"prefix":"10.0.0.0/24","role":null,"status":{"label":"Active","value":"active"},"vrf":1}
PATCH /api/ipam/vrfs/1/|{"enforce_unique":true}|400 Bad Request|Ipam-Place: 5|{"code":"coincide","detail":"prefixes 1 and 2 coincide"}
DELETE /api/ipam/prefixes/2/||204 No Content|Ipam-Place: 5|
PATCH /api/ipam/vrfs/1/|{"enforce_unique":true}|400 Bad Request|Ipam-Place: 6|{"code":"coincide","detail":"ip-addresses 1 and 2 coincide"}
DELETE /api/ipam/ip-addresses/2/||204 No Content|Ipam-Place: 6|
PATCH /api/ipam/vrfs/1/|{"enforce_unique":true}|200 OK|Ipam-Place: 7|{"description":"","enforce_unique":true,"id":1,"name":"red","rd":null}"#;

/// Conversations, each of which has its own register.
const CONVERSATIONS: [&str; 4] = [EXCHANGES, CHANGES, KINDS, ENFORCING];

/// The first request and its answer, and after it a request that ends inside its body.
fn cut_short(alloc: Global) -> Result<(Vec<u8>, Vec<u8>), AllocError> {
    let (mut input, mut output) = opening(alloc)?;
    put(
        &mut input,
        "POST /api/ipam/vrfs/ HTTP/1.1\r\nContent-Length: 14\r\n\r\n{\"name\"",
    )?;
    put(&mut output, CUT_SHORT)?;
    Ok((input, output))
}

/// Whether an input in pieces of this size is answered so, and nothing is said.
fn is_answered<R: Threads + Wait + Sync>(
    rt: &R,
    alloc: Global,
    input: &[u8],
    output: &[u8],
    piece: usize,
) -> Result<bool, AllocError> {
    let left = run_on(rt, alloc, "session", input, piece, [&[], &[], &[]])?;
    Ok(left.status == 0 && left.errors.is_empty() && left.output.as_slice() == output)
}

/// The first size of pieces in which an input is answered otherwise, or 0.
fn wrong_piece<R: Threads + Wait + Sync>(
    rt: &R,
    alloc: Global,
    (input, output): (Vec<u8>, Vec<u8>),
) -> Result<usize, AllocError> {
    for piece in [1, 7, 4_096] {
        if !is_answered(rt, alloc, &input, &output, piece)? {
            return Ok(piece);
        }
    }
    Ok(0)
}

#[test]
fn requests_and_their_answers(rt: HostRuntime) -> Result<(), Fail> {
    for text in CONVERSATIONS {
        let piece = wrong_piece(&rt, rt.alloc(), conversation(rt.alloc(), text)?)?;
        assert!(rt; piece == 0, "pieces of {piece} of {text}");
    }
    Ok(())
}

#[test]
fn an_input_that_ends_inside_a_body(rt: HostRuntime) -> Result<(), Fail> {
    let piece = wrong_piece(&rt, rt.alloc(), cut_short(rt.alloc())?)?;
    assert!(rt; piece == 0, "pieces of {piece}");
    Ok(())
}
