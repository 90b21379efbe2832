// The types and the PDUs as text.
use crate::{LlcPduType, Pdu};
use std::fmt;

impl fmt::Display for LlcPduType {
    fn fmt<W: fmt::Write>(&self, f: &mut fmt::Formatter<W>) -> fmt::Result {
        f.write_str(match self {
            LlcPduType::BlAdata => "BL-ADATA",
            LlcPduType::BlData => "BL-DATA",
            LlcPduType::BlUdata => "BL-UDATA",
            LlcPduType::BlAck => "BL-ACK",
            LlcPduType::BlAdataFcs => "BL-ADATA with FCS",
            LlcPduType::BlDataFcs => "BL-DATA with FCS",
            LlcPduType::BlUdataFcs => "BL-UDATA with FCS",
            LlcPduType::BlAckFcs => "BL-ACK with FCS",
            LlcPduType::AlSetup => "AL-SETUP",
            LlcPduType::AlDataAlFinal => "AL-DATA and AL-FINAL",
            LlcPduType::AlAlUdataAlUfinal => "AL-UDATA and AL-UFINAL",
            LlcPduType::AlAckAlRnr => "AL-ACK and AL-RNR",
            LlcPduType::AlReconnect => "AL-RECONNECT",
            LlcPduType::SuppLlcPdu => "supplementary LLC PDU",
            LlcPduType::L2SigPdu => "layer 2 signalling PDU",
            LlcPduType::AlDisc => "AL-DISC",
        })
    }
}

impl fmt::Display for Pdu {
    fn fmt<W: fmt::Write>(&self, f: &mut fmt::Formatter<W>) -> fmt::Result {
        f.write_str(match self {
            Pdu::BlAdata { .. } => "BL-ADATA",
            Pdu::BlData { .. } => "BL-DATA",
            Pdu::BlUdata { .. } => "BL-UDATA",
            Pdu::BlAck { .. } => "BL-ACK",
        })?;
        if self.has_fcs() {
            f.write_str(" with FCS")?;
        }
        if let Some(nr) = self.nr() {
            write!(f, " N(R) {}", u8::from(nr))?;
        }
        if let Some(ns) = self.ns() {
            write!(f, " N(S) {}", u8::from(ns))?;
        }
        Ok(())
    }
}
