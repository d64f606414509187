//! How long the block for so many claims is.

ghost use Rattle.std.specs.Prelude.{◌≡◌, ◌≤◌};
ghost use Rattle.command_load.specs.LoadText.{load_len as len_of};

/// The length of the block of IPv4 on which so many claims of one address are made: the greatest with four addresses for each claim.
pub fn load_len(claims: u32) -> u8
    ensures len { result ≡ len_of claims }
    ensures short { result ≤ 32 }
{
    let wanted = 4 * u64::from(claims);
    let mut len = 32u8;
    while len > 0 && (1u64 << (32 - len)) < wanted {
        len -= 1;
    }
    len
}
