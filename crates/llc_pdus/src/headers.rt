// The header of a frame, which is in its first byte.
ghost use Rattle.std.specs.Prelude.{◌≡◌, length};
ghost use Rattle.bits.specs.Bits.{to_bits, bits};
ghost use Rattle.questions.specs.Refusals.{outcome};
ghost use Rattle.llc_pdus.specs.Answers.{head_from};
ghost use Rattle.llc_pdus.specs.Headers.{header, has_fcs, ns_of, nr_of, option_of, reading_of};
ghost use Rattle.llc_pdus.specs.Sdus.{header_end};

use crate::Pdu;
use bits::within;
use questions::Refusal;

// Where a header ends: the byte that holds its last bit, and how many bits of that byte are the header's.
#[derive(Clone, Copy)]
pub(crate) struct HeaderEnd {
    pub byte: usize,
    pub bits: usize,
}

impl Pdu {
    // The PDU whose header begins a frame of so many bits, by questions 9 to 11; number 5 if there are not so many.
    pub(crate) fn read_header(frame: &[u8], len: usize) -> Result<Pdu, Refusal>
        ensures { outcome result ≡ head_from (bits frame.now) len }
    {
        if !within(len, frame) {
            return Err(Refusal::OutOfRange);
        }
        if len < 4 {
            return Err(Refusal::ShortFrame);
        }
        let b = frame[0];
        if 128 <= b {
            return Err(Refusal::OtherType);
        }
        let pdu = Pdu::first_byte(b);
        if len < pdu.header_len() {
            return Err(Refusal::ShortHeader);
        }
        Ok(pdu)
    }

    // The PDU that a first byte begins.
    #[tactic(auto, unfolding(bits::specs::Bits::to_bits))]
    fn first_byte(b: u8) -> Pdu
        ensures { result ≡ (reading_of (to_bits 8 b)).pdu }
    {
        let has_fcs = b / 64 % 2 == 1;
        let x = b / 8 % 2 == 1;
        let y = b / 4 % 2 == 1;
        match (b / 32 % 2 == 1, b / 16 % 2 == 1) {
            (false, false) => Pdu::BlAdata {
                has_fcs,
                nr: x,
                ns: y,
            },
            (false, true) => Pdu::BlData { has_fcs, ns: x },
            (true, false) => Pdu::BlUdata { has_fcs },
            (true, true) => Pdu::BlAck { has_fcs, nr: x },
        }
    }

    // How many bits the header has.
    pub(crate) fn header_len(self) -> usize
        ensures { result ≡ length (header self) }
    {
        match self {
            Pdu::BlAdata { .. } => 6,
            Pdu::BlData { .. } | Pdu::BlAck { .. } => 5,
            Pdu::BlUdata { .. } => 4,
        }
    }

    // Where the header ends in its frame: the bits behind it are lent from that byte on.
    pub(crate) fn header_end(self) -> HeaderEnd
        ensures { result ≡ header_end self }
    {
        let last = self.header_len() - 1;
        HeaderEnd {
            byte: last / 8,
            bits: last % 8 + 1,
        }
    }

    // The FCS flag.
    pub(crate) fn has_fcs(self) -> bool
        ensures { result ≡ has_fcs self }
    {
        match self {
            Pdu::BlAdata { has_fcs, .. }
            | Pdu::BlData { has_fcs, .. }
            | Pdu::BlUdata { has_fcs }
            | Pdu::BlAck { has_fcs, .. } => has_fcs,
        }
    }

    /// The N(S), if the PDU has one.
    pub fn ns(self) -> Option<bool>
        ensures { option_of result ≡ ns_of self }
    {
        match self {
            Pdu::BlAdata { ns, .. } | Pdu::BlData { ns, .. } => Some(ns),
            Pdu::BlUdata { .. } | Pdu::BlAck { .. } => None,
        }
    }

    /// The N(R), if the PDU has one.
    pub fn nr(self) -> Option<bool>
        ensures { option_of result ≡ nr_of self }
    {
        match self {
            Pdu::BlAdata { nr, .. } | Pdu::BlAck { nr, .. } => Some(nr),
            Pdu::BlData { .. } | Pdu::BlUdata { .. } => None,
        }
    }
}
