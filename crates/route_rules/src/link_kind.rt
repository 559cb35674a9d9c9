//! The protocols of centres.

/// What a link speaks with its centre.
#[derive(Clone, Copy)]
pub enum LinkKind {
    /// SMPP 3.4.
    Smpp,
    /// EMI/UCP 4.0.
    Ucp,
    /// The profile after CIMD2.
    Cimd2,
}
