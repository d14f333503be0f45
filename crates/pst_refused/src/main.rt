//! Makes each call that takes memory, and makes it again where memory was refused. So a run in which one allocation is refused
//! prints what one prints in which none is: the call that wanted memory said so, and the next one answers as if nothing had been.
//! tools/refuse runs it once for each of its allocations.
//!
//! The store is a small one that is made, or the file that the word behind the program's name names; of one that is encoded it is
//! the plain twin.
#![tactic(auto)]

mod contexts;
mod documents;
mod layers;
mod refused;
mod remains;
mod whole;

use refused::Refused;
use std::alloc::Global;
use std::io::Write;
use std::process::ExitCode;
use std::{env, fs};

// How often something is tried: once more than memory is refused.
const TRIES: u32 = 2;

// What is tried.
#[derive(Clone, Copy, Debug)]
enum Calls {
    Layers,
    Database,
    Remains,
    Decoded,
    Contexts,
    Report,
    Lists,
    Nodes,
    Values,
    Whole,
    Archive,
    ArchiveOfWhole,
    Images,
    Load,
    Run,
}

const ALL: [Calls; 15] = [
    Calls::Layers,
    Calls::Database,
    Calls::Remains,
    Calls::Decoded,
    Calls::Contexts,
    Calls::Report,
    Calls::Lists,
    Calls::Nodes,
    Calls::Values,
    Calls::Whole,
    Calls::Archive,
    Calls::ArchiveOfWhole,
    Calls::Images,
    Calls::Load,
    Calls::Run,
];

fn made(alloc: Global, calls: Calls, bytes: &[u8]) -> Result<(), Refused> {
    match calls {
        Calls::Layers => layers::answer(alloc, bytes),
        Calls::Database => layers::database(alloc, bytes),
        Calls::Remains => remains::remains(alloc, bytes),
        Calls::Decoded => remains::decoded_remains(alloc, bytes),
        Calls::Contexts => contexts::contexts(alloc, bytes),
        Calls::Report => documents::report(alloc, bytes),
        Calls::Lists => documents::lists(alloc, bytes),
        Calls::Nodes => documents::nodes(alloc, bytes),
        Calls::Values => documents::values(alloc, bytes),
        Calls::Whole => documents::whole(alloc, bytes),
        Calls::Archive => documents::archive(alloc, bytes),
        Calls::ArchiveOfWhole => documents::archive_of_whole(alloc, bytes),
        Calls::Images => whole::images(alloc),
        Calls::Load => whole::loads(alloc, bytes),
        Calls::Run => whole::run_of(alloc, bytes),
    }
}

// The same, and again where memory was refused.
fn tried(alloc: Global, calls: Calls, bytes: &[u8]) -> Result<(), Refused> {
    for _ in 0..TRIES {
        match made(alloc, calls, bytes) {
            Err(Refused::Memory) => {}
            answer => return answer,
        }
    }
    Err(Refused::Memory)
}

// The bytes of a file, or of the small store.
fn bytes_of(rt: &HostRuntime, name: Option<&str>) -> Result<Vec<u8>, Refused> {
    match name {
        Some(name) => match fs::open(rt, name) {
            Ok(mut file) => Ok(pst_run::load(rt.alloc(), &mut file, 0)?),
            Err(_) => Err(Refused::Otherwise),
        },
        None => Ok(pst_make::m1(rt.alloc())?),
    }
}

fn read(rt: &HostRuntime, name: Option<&str>) -> Result<Vec<u8>, Refused> {
    for _ in 0..TRIES {
        match bytes_of(rt, name) {
            Err(Refused::Memory) => {}
            answer => return answer,
        }
    }
    Err(Refused::Memory)
}

// The plain twin of these bytes: all calls are made of it.
fn twin(alloc: Global, bytes: &[u8]) -> Result<Vec<u8>, Refused> {
    for _ in 0..TRIES {
        match whole::twin(alloc, bytes) {
            Err(Refused::Memory) => {}
            answer => return answer,
        }
    }
    Err(Refused::Memory)
}

fn words(rt: &HostRuntime) -> Result<Vec<String>, Refused> {
    for _ in 0..TRIES {
        let Ok(args) = env::args(rt) else {
            continue;
        };
        if let Ok(words) = args.skip(1).collect(rt.alloc()) {
            return Ok(words);
        }
    }
    Err(Refused::Memory)
}

// Tries all of them, and tells which answered otherwise than they should.
fn try_all(rt: &HostRuntime) -> Result<bool, Refused> {
    let words = words(rt)?;
    let bytes = read(rt, words.first().map(|word| word.as_str()))?;
    let bytes = twin(rt.alloc(), &bytes)?;
    let mut is_good = true;
    for calls in ALL {
        let answer = match tried(rt.alloc(), calls, &bytes) {
            Ok(()) => "answers",
            Err(refused) => {
                is_good = false;
                refused.text()
            }
        };
        let _ = writeln!(rt.stdout(), "{calls:?}: {answer}");
    }
    Ok(is_good)
}

fn main(rt: HostRuntime) -> ExitCode {
    match try_all(&rt) {
        Ok(true) => ExitCode::from(0),
        Ok(false) => ExitCode::from(1),
        Err(refused) => {
            let _ = writeln!(rt.stderr(), "{}", refused.text());
            ExitCode::from(1)
        }
    }
}
