// The flags of a request.
ghost use Rattle.std.specs.Prelude.{◌≡◌};
ghost use Rattle.llc_rule.specs.Ranges.{steals, wants_fcs, has_mask};
ghost use Rattle.llc_calls.specs.Decoded.{request_of};

use crate::RequestCall;

impl<'a> RequestCall<'a> {
    /// Flag 1: does this request steal?
    #[tactic(auto, unfolding(crate::specs::Decoded::request_of))]
    pub fn steals(&self) -> bool
        ensures { result ≡ steals (request_of self.now) }
    {
        self.flags % 2 == 1
    }

    /// Flag 2: does this request want a check sequence?
    #[tactic(auto, unfolding(crate::specs::Decoded::request_of))]
    pub fn wants_fcs(&self) -> bool
        ensures { result ≡ wants_fcs (request_of self.now) }
    {
        self.flags / 2 % 2 == 1
    }

    /// Flag 4: does this request have a mask?
    #[tactic(auto, unfolding(crate::specs::Decoded::request_of))]
    pub fn has_mask(&self) -> bool
        ensures { result ≡ has_mask (request_of self.now) }
    {
        self.flags / 4 % 2 == 1
    }
}
