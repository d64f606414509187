//! What a database keeps of pools at the edges: as many ranges and members as one change may have, with great ids and numbers, and a change
//! after a fault.

use crate::database::{Trial, over_file};
use crate::going_on::pool_answers;
use crate::pool_changing::wrong_over;
use sqlite::{Alter, Connection};
use sqlite_pools::SqlitePools;
use std::alloc::{AllocError, Global};
use std::test::Fail;

/// Many ranges, a claim of many members of the last one, and the last of each that goes.
const MANY: &str = "\
done|many||||4000000000,1
done||claim|||4000000001,4294967295
done||||4294967294|4000000002,4294967295
done|||3992070000||4294967295,4294967295
";

/// Faults, each with a change after it.
const FAULTS: &str = "\
done|1,vlan,floor,100,199||||2,1
Failed|1,vlan,again,200,299||||3,1
done||1,1,100,room 1|||2,2
Failed||2,1,101,room 2;2,1,102,room 3|||2,3
done||3,1,103,room 4|||2,4
";

/// What the keeper is to answer, and to load before and after that.
const GONE_ON: &str = "\
1,1:
done
Failed
done
Failed
done
2,4:1 Vlan floor 100 199;1 1 100 room 1;3 1 103 room 4;";

#[test]
fn many_ranges_and_a_great_claim_are_kept(rt: HostRuntime) -> Result<(), Fail> {
    let wrong = wrong_over(rt.alloc(), "", "0", MANY)?;
    assert!(rt; wrong.is_empty(), "{wrong}");
    Ok(())
}

/// Changes one after another by one keeper.
struct GoingOn;

impl Trial for GoingOn {
    fn over<S: Alter + Drop>(
        alloc: Global,
        conn: Connection<S>,
        words: &str,
    ) -> Result<String, AllocError> {
        let mut keeper = SqlitePools::adopt(alloc, conn);
        pool_answers(alloc, &mut keeper, words)
    }
}

#[test]
fn a_change_of_pools_behind_a_fault_is_kept(rt: HostRuntime) -> Result<(), Fail> {
    let told = over_file::<GoingOn>(rt.alloc(), "", FAULTS)?;
    assert!(rt; told.as_str() == GONE_ON, "{told}");
    Ok(())
}
