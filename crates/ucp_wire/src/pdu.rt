//! An operation or its result.

/// An operation or its result (EMI/UCP 4.0). Its length and its checksum follow from the rest.
#[derive(Clone, Copy)]
pub struct Pdu<'a> {
    /// TRN: the number, 0 to 99. A result has that of its operation.
    pub trn: u8,
    /// Whether it is a result (R), and no operation (O).
    pub result: bool,
    /// OT: which operation it is, 0 to 99.
    pub operation: u8,
    /// The fields with the `/` between them.
    pub fields: &'a [u8],
}
