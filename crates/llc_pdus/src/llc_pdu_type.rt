// LLC PDU types (clause 21.2.1), from llc_pdu_type.rs.
ghost use Rattle.std.specs.Prelude.{◌≡◌};
ghost use Rattle.questions.specs.Refusals.{outcome};
ghost use Rattle.llc_pdus.specs.Types.{raw, from_raw};

use questions::Refusal;

/// The type of an LLC PDU, four bits.
#[derive(Clone, Copy, Debug, PartialEq, Eq)]
pub enum LlcPduType {
    BlAdata = 0,
    BlData = 1,
    BlUdata = 2,
    BlAck = 3,
    BlAdataFcs = 4,
    BlDataFcs = 5,
    BlUdataFcs = 6,
    BlAckFcs = 7,
    AlSetup = 8,
    AlDataAlFinal = 9,
    AlAlUdataAlUfinal = 10,
    AlAckAlRnr = 11,
    AlReconnect = 12,
    SuppLlcPdu = 13,
    L2SigPdu = 14,
    AlDisc = 15,
}

// The type with a number, or question 5: it is below 16.
impl TryFrom<u64> for LlcPduType {
    type Error = Refusal;

    ghost try_from_gives = { λ x t. outcome t ≡ from_raw x };

    fn try_from(x: u64) -> Result<LlcPduType, Refusal> {
        match x {
            0 => Ok(LlcPduType::BlAdata),
            1 => Ok(LlcPduType::BlData),
            2 => Ok(LlcPduType::BlUdata),
            3 => Ok(LlcPduType::BlAck),
            4 => Ok(LlcPduType::BlAdataFcs),
            5 => Ok(LlcPduType::BlDataFcs),
            6 => Ok(LlcPduType::BlUdataFcs),
            7 => Ok(LlcPduType::BlAckFcs),
            8 => Ok(LlcPduType::AlSetup),
            9 => Ok(LlcPduType::AlDataAlFinal),
            10 => Ok(LlcPduType::AlAlUdataAlUfinal),
            11 => Ok(LlcPduType::AlAckAlRnr),
            12 => Ok(LlcPduType::AlReconnect),
            13 => Ok(LlcPduType::SuppLlcPdu),
            14 => Ok(LlcPduType::L2SigPdu),
            15 => Ok(LlcPduType::AlDisc),
            _ => Err(Refusal::OutOfRange),
        }
    }
}

// The number of a type.
impl From<LlcPduType> for u64 {
    ghost from_gives = { λ t x. x ≡ raw t };

    fn from(t: LlcPduType) -> u64 {
        t as u64
    }
}
