//! The program: reads the words, makes the machine's house and calls the command.
#![tactic(auto)]

use boxes_main::{
    Command, ConfigFault, HostHouse, House, OpeningFault, door, link_once, read_command, show,
    status, tell,
};
use kn_base::{Memory, Octets};
use std::alloc::Global;
use std::env;
use std::fs::{File, Files};
use std::io::ErrorKind;
use std::net::Net;
use std::process::ExitCode;
use std::rt::{Env, Runtime};

/// A file that gives nothing and takes nothing.
const NULL: &str = "/dev/null";

/// The words behind the program's name. Where they can't be read as text there are none, which is no command.
fn read_words<R: Env + AllocGlobal>(rt: &R) -> Result<Vec<Octets>, Memory> {
    let alloc: Global = rt.alloc();
    let mut words = Vec::new(alloc);
    match env::args(rt) {
        Ok(args) => {
            for word in args.skip(1) {
                words.push(Octets::from_slice(alloc, word.as_bytes())?)?;
            }
        }
        Err(error) if error.kind() == ErrorKind::OutOfMemory => return Err(Memory),
        Err(_) => {}
    }
    Ok(words)
}

/// Runs the command that the words name over a house, and gives the status. Words that name none are told how to name one.
fn run_words<H: House>(alloc: Global, words: &[Octets], house: &mut H) -> u8 {
    match read_command(words) {
        Some(Command::Show { .. }) => show(alloc, words, house).status,
        Some(Command::Link { .. }) => link_once(alloc, words, house).status,
        Some(Command::Door { .. }) | None => door(alloc, words, house).status,
    }
}

/// Runs the command of the program's words. Where there is no memory for the words, it says so.
fn run_in<R: Env + AllocGlobal, H: House>(rt: &R, house: &mut H) -> u8 {
    match read_words(rt) {
        Ok(words) => run_words(rt.alloc(), &words, house),
        Err(Memory) => {
            let fault = Some(OpeningFault::Configuration(ConfigFault::Memory));
            tell(house.errors(), &fault);
            status(&fault)
        }
    }
}

/// Runs the command over the machine's house.
///
/// A standard stream that was closed leaves its descriptor to the next file that is opened, which would be one of the store,
/// and the answer would be written into it. So three files stand open first.
fn run<R: Runtime + Files<File = File> + Net + AllocGlobal + Copy>(rt: R) -> u8 {
    let _first = File::open(&rt, NULL);
    let _second = File::open(&rt, NULL);
    let _third = File::open(&rt, NULL);
    run_in(&rt, &mut HostHouse::new(rt))
}

fn main(rt: HostRuntime) -> ExitCode {
    ExitCode::from(run(rt))
}
