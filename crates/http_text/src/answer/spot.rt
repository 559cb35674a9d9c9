//! What is wrong with a request that is refused.

ghost use Rattle.std.specs.Prelude.{◌≡◌, ◌≤◌, length};
ghost use Rattle.http_text.specs.Answer as spec;

/// What is wrong with a request: its head, or a variable of its form.
#[derive(Clone, Copy)]
pub enum Spot {
    /// No head can be read, or its target doesn't begin with `/`.
    Head,
    /// The method isn't GET.
    Method,
    /// There is a body.
    Body,
    To,
    From,
    Coding,
    Mclass,
    Charset,
    Udh,
    Smsc,
    Validity,
    Deferred,
    DlrMask,
    DlrUrl,
    Account,
    Text,
}

impl Spot {
    /// The name of what is wrong: of a variable its own, as a query writes it.
    pub fn name(self) -> &'static [u8]
        ensures value { result.now ≡ spec.spot_name self }
        ensures short { length result.now ≤ 32 }
    {
        match self {
            Spot::Head => b"head",
            Spot::Method => b"method",
            Spot::Body => b"body",
            Spot::To => b"to",
            Spot::From => b"from",
            Spot::Coding => b"coding",
            Spot::Mclass => b"mclass",
            Spot::Charset => b"charset",
            Spot::Udh => b"udh",
            Spot::Smsc => b"smsc",
            Spot::Validity => b"validity",
            Spot::Deferred => b"deferred",
            Spot::DlrMask => b"dlr-mask",
            Spot::DlrUrl => b"dlr-url",
            Spot::Account => b"account",
            Spot::Text => b"text",
        }
    }
}
