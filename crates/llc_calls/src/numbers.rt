// Big-endian numbers of lent bytes.
ghost use Rattle.std.specs.Prelude.{◌^◌, ◌≤◌, ◌<◌, ◌≡◌, length};
ghost use Rattle.llc_rule.specs.Calls.{from_bytes};

// The number that up to four bytes spell.
#[tactic(auto, using(crate::proofs::Spelled::one_more), unfolding(llc_rule::specs::Calls::from_bytes))]
pub(crate) fn number(bytes: &[u8]) -> u32
    requires { length bytes.now ≤ 4 }
    ensures value { result ≡ from_bytes bytes.now }
    ensures upper_bound { result < 256 ^ length bytes.now }
{
    let mut number: u32 = 0;
    for b in bytes {
        number = number * 256 + *b as u32;
    }
    number
}
