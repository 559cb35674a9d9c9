//! The escapes and their letters.

ghost use Rattle.std.specs.Prelude.{◌≡◌};
ghost use Rattle.url_escapes.specs.Escape.{escape_of};

/// What an escape asks for. What each stands for is said in `write_value`, and which words it uses in `left_by`.
#[derive(Clone, Copy)]
pub(crate) enum Escape {
    Keyword,
    NextWord,
    NextWordTilde,
    OtherWords,
    AllWords,
    Message,
    Date,
    Seconds,
    Sender,
    Receiver,
    SenderPlus,
    ReceiverPlus,
    Smsc,
    InternalId,
    ReportValue,
    Answer,
    ForeignId,
    Name,
    Coding,
    Class,
    Charset,
    Udh,
    Account,
}

/// The escape whose letter stands behind a `%`.
pub(crate) fn escape_of(letter: u8) -> Option<Escape>
    ensures { result ≡ escape_of letter }
{
    let escape = match letter {
        b'k' => Escape::Keyword,
        b's' => Escape::NextWord,
        b'S' => Escape::NextWordTilde,
        b'r' => Escape::OtherWords,
        b'a' => Escape::AllWords,
        b'b' => Escape::Message,
        b't' => Escape::Date,
        b'T' => Escape::Seconds,
        b'p' => Escape::Sender,
        b'P' => Escape::Receiver,
        b'q' => Escape::SenderPlus,
        b'Q' => Escape::ReceiverPlus,
        b'i' => Escape::Smsc,
        b'I' => Escape::InternalId,
        b'd' => Escape::ReportValue,
        b'A' => Escape::Answer,
        b'F' => Escape::ForeignId,
        b'n' => Escape::Name,
        b'c' => Escape::Coding,
        b'm' => Escape::Class,
        b'C' => Escape::Charset,
        b'u' => Escape::Udh,
        b'o' => Escape::Account,
        _ => return None,
    };
    Some(escape)
}
