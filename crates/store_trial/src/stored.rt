//! Changes that any keeper stores one after another, each a line: of a register, and of pools.

use crate::{lines, pool_lines};
use ipam_keeper::keeper::Keeper;
use pool_keeper::keeper::PoolKeeper;
use std::alloc::{AllocError, Global};

/// An import of ten prefixes, ten creations of VRFs and a deletion.
pub(crate) const CHANGES: &str = "\
done|prefixes,1,10.0.1.0/24,,active,,false,false,;prefixes,2,10.0.2.0/24,,active,,false,false,;prefixes,3,10.0.3.0/24,,active,,false,false,;prefixes,4,10.0.4.0/24,,active,,false,false,;prefixes,5,10.0.5.0/24,,active,,false,false,;prefixes,6,10.0.6.0/24,,active,,false,false,;prefixes,7,10.0.7.0/24,,active,,false,false,;prefixes,8,10.0.8.0/24,,active,,false,false,;prefixes,9,10.0.9.0/24,,active,,false,false,;prefixes,10,10.0.10.0/24,,active,,false,false,||prefixes,11
done|vrfs,1,customer 1,65000:1,true,||vrfs,2
done|vrfs,2,customer 2,65000:2,true,||vrfs,3
done|vrfs,3,customer 3,65000:3,true,||vrfs,4
done|vrfs,4,customer 4,65000:4,true,||vrfs,5
done|vrfs,5,customer 5,65000:5,true,||vrfs,6
done|vrfs,6,customer 6,65000:6,true,||vrfs,7
done|vrfs,7,customer 7,65000:7,true,||vrfs,8
done|vrfs,8,customer 8,65000:8,true,||vrfs,9
done|vrfs,9,customer 9,65000:9,true,||vrfs,10
done|vrfs,10,customer 10,65000:10,true,||vrfs,11
done||vrfs,1|
";

/// A group, a claim of ten VLANs in it, and one given back.
const POOL_CHANGES: &str = "\
done|1,vlan,floor,100,199||||2,1
done||1,1,100,room 1;2,1,101,room 2;3,1,102,room 3;4,1,103,room 4;5,1,104,room 5;6,1,105,room 6;7,1,106,room 7;8,1,107,room 8;9,1,108,room 9;10,1,109,room 10|||2,11
done||||3|2,11
";

/// Makes the change of a line.
fn is_stored<K: Keeper>(alloc: Global, keeper: &mut K, line: &str) -> Result<bool, AllocError> {
    let change = lines::change_of(alloc, line)?;
    Ok(keeper.apply(&change).is_ok())
}

/// An import of many rows.
pub(crate) const IMPORT: &str = "done|import||prefixes,4201\n";

/// Loads the tables, and stores the first changes of these lines up to this many, until a call fails. It says how many were stored.
pub(crate) fn store<K: Keeper>(
    alloc: Global,
    keeper: &mut K,
    lines: &str,
    changes: u32,
) -> Result<u32, AllocError> {
    if keeper.load().is_err() {
        return Ok(0);
    }
    let mut stored = 0u32;
    for line in lines.lines().take(changes as usize) {
        if !is_stored(alloc, keeper, line)? {
            return Ok(stored);
        }
        stored = stored.saturating_add(1);
    }
    Ok(stored)
}

/// Makes the change of pools of a line.
fn are_stored<K: PoolKeeper>(
    alloc: Global,
    keeper: &mut K,
    line: &str,
) -> Result<bool, AllocError> {
    let change = pool_lines::change_of(alloc, line)?;
    Ok(keeper.apply(&change).is_ok())
}

/// The same of pools.
pub(crate) fn store_pools<K: PoolKeeper>(
    alloc: Global,
    keeper: &mut K,
    changes: u32,
) -> Result<u32, AllocError> {
    if keeper.load().is_err() {
        return Ok(0);
    }
    let mut stored = 0u32;
    for line in POOL_CHANGES.lines().take(changes as usize) {
        if !are_stored(alloc, keeper, line)? {
            return Ok(stored);
        }
        stored = stored.saturating_add(1);
    }
    Ok(stored)
}
