//! Why no store stands open.

ghost use Rattle.std.specs.Prelude.{◌≡◌};
ghost use Rattle.boxes_main.specs.Line.{text_in};
ghost use Rattle.boxes_main.specs.OpeningFault.{configuration_row, opening_row, store_row};

use crate::command::USAGE;
use crate::failure::Fault;
use crate::line::{DISK_FAULT, Line, OUT_OF_MEMORY};
use config_groups::ConfigFault;
use gate_store::StoreFault;

/// Why no store stands open, by the layer that it went wrong in.
#[derive(Drop)]
pub enum OpeningFault {
    /// The words name no command.
    Usage,
    /// The configuration is refused.
    Configuration(ConfigFault),
    /// The configuration names no store.
    NoStoreFile,
    /// The store wasn't opened.
    Store(StoreFault),
}

/// How the program ends where the configuration is refused.
fn row_of_configuration(fault: &ConfigFault) -> (u8, Line)
    ensures { (result.0, text_in result.1) ≡ configuration_row fault.now }
{
    match fault {
        ConfigFault::Line { file, line } => (
            3,
            Line::Place {
                file: *file,
                line: *line,
            },
        ),
        ConfigFault::Value { file, line } => (
            3,
            Line::Place {
                file: *file,
                line: *line,
            },
        ),
        ConfigFault::Missing { group, variable } => (
            3,
            Line::Lack {
                group: *group,
                variable,
            },
        ),
        ConfigFault::TooDeep => (3, Line::Text(b"boxes: configuration: too deep\n")),
        ConfigFault::NoFile => (3, Line::Text(b"boxes: configuration: cannot read\n")),
        ConfigFault::Memory => (9, Line::Text(OUT_OF_MEMORY)),
    }
}

/// The same where the store wasn't opened.
fn row_of_store(fault: &StoreFault) -> (u8, Line)
    ensures { (result.0, text_in result.1) ≡ store_row fault.now }
{
    match fault {
        StoreFault::Foreign { area, at } => (
            4,
            Line::Misfit {
                area: *area,
                at: *at,
            },
        ),
        StoreFault::Disk => (5, Line::Text(DISK_FAULT)),
        StoreFault::Memory => (9, Line::Text(OUT_OF_MEMORY)),
    }
}

impl Fault for OpeningFault {
    ghost says = { opening_row };

    fn row(&self) -> (u8, Line) {
        match self {
            OpeningFault::Usage => (2, Line::Text(USAGE)),
            OpeningFault::Configuration(fault) => row_of_configuration(fault),
            OpeningFault::NoStoreFile => {
                (3, Line::Text(b"boxes: configuration: no store-file\n"))
            }
            OpeningFault::Store(fault) => row_of_store(fault),
        }
    }
}
