//! What the words of the program ask for, and the line that says which words there are.

ghost use Rattle.std.specs.Prelude.{◌≡◌, ◌++◌, ◌∷◌, [], codes};
ghost use Rattle.boxes_main.specs.Command.{configuration_of, door_in, link_in, link_words, show_in};

pub(crate) mod door;
pub(crate) mod link;
pub(crate) mod show;

use kn_base::Octets;

/// A command, with the words that it takes.
#[derive(Clone, Copy)]
pub enum Command<'a> {
    /// Serves one connection over HTTP on standard input and output.
    Door {
        configuration: &'a Octets,
    },
    /// Prints what the store counts on standard output.
    Show {
        configuration: &'a Octets,
    },
    /// Holds one session of the first link with that id.
    Link {
        configuration: &'a Octets,
        id: &'a Octets,
    },
}

/// What is said of words that name no command.
pub const USAGE: &[u8] = b"boxes: usage: boxes door CONF | show CONF | link CONF ID\n";

/// The command that the words name: `door` or `show` and the name of a configuration, or `link` with that and the id of a link. Other words
/// name none.
pub fn read_command(words: &[Octets]) -> Option<Command>
    ensures door { door_in result ≡ configuration_of (codes "door") words.now }
    ensures show { show_in result ≡ configuration_of (codes "show") words.now }
    ensures link { link_in result ≡ link_words (codes "link") words.now }
{
    match words {
        [command, configuration] if command.as_slice() == b"door".as_slice() => {
            Some(Command::Door { configuration })
        }
        [command, configuration] if command.as_slice() == b"show".as_slice() => {
            Some(Command::Show { configuration })
        }
        [command, configuration, id] if command.as_slice() == b"link".as_slice() => {
            Some(Command::Link { configuration, id })
        }
        _ => None,
    }
}
