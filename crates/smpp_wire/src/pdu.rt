//! A PDU: the header's numbers but the length, and the body.

/// A PDU (SMPP 3.4, 3.2). Its length follows from its body.
#[derive(Clone, Copy)]
pub struct Pdu<'a> {
    /// command_id: which command it is.
    pub id: u32,
    /// command_status: 0, or an error in an answer.
    pub status: u32,
    /// sequence_number: an answer has that of what it answers.
    pub sequence: u32,
    /// The fields behind the header.
    pub body: Body<'a>,
}

/// The fields of a body, in their order. Texts stand without the octet 00 that ends them.
#[derive(Clone, Copy)]
pub enum Body<'a> {
    /// bind_transceiver (4.1.5).
    Bind {
        system_id: &'a [u8],
        password: &'a [u8],
        system_type: &'a [u8],
        interface_version: u8,
        addr_ton: u8,
        addr_npi: u8,
        address_range: &'a [u8],
    },
    /// bind_transceiver_resp (4.1.6).
    BindReply {
        system_id: &'a [u8],
        tlvs: &'a [u8],
    },
    /// submit_sm (4.4.1) and deliver_sm (4.6.1). `tlvs` are the octets of whole TLVs (3.2.4.1).
    Message {
        service_type: &'a [u8],
        source_ton: u8,
        source_npi: u8,
        source: &'a [u8],
        destination_ton: u8,
        destination_npi: u8,
        destination: &'a [u8],
        esm_class: u8,
        protocol_id: u8,
        priority_flag: u8,
        schedule_delivery_time: &'a [u8],
        validity_period: &'a [u8],
        registered_delivery: u8,
        replace_if_present_flag: u8,
        data_coding: u8,
        sm_default_msg_id: u8,
        short_message: &'a [u8],
        tlvs: &'a [u8],
    },
    /// submit_sm_resp (4.4.2).
    SubmitReply {
        message_id: &'a [u8],
    },
    /// deliver_sm_resp (4.6.2), whose message_id is empty.
    DeliverReply,
    /// A body without octets, where the command's row allows it.
    Nothing,
    /// Any octets, of a command that has no row.
    Any(&'a [u8]),
}
