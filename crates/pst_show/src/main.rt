//! Checks and shows a Personal Folders File ([MS-PST]).
#![tactic(auto)]

use pst_ask::{NoOrder, Order, Request, lacking_word, parse};
use pst_run::{
    Progress, Refusal, Source, Watched, carry_out, decline, explain_out, refuse, say_cause,
    say_what_helps, say_word,
};
use std::io::{IsTerminal, Write};
use std::process::ExitCode;
use std::{env, io};

// Runs the command on the named file. Where that cannot be read, a line says why; where it is refused, a line on a terminal says
// what helps.
fn run_command(rt: &HostRuntime, request: Request<'_>) -> u8 {
    let source = Source::named(rt, request.file);
    let expected = source.expected();
    let mut input = Watched::new(source, Progress::on_terminal(rt, expected));
    let (mut out, mut err) = (rt.stdout(), rt.stderr());
    let ending = carry_out(
        rt.alloc(),
        &request,
        &mut input,
        expected,
        &mut out,
        &mut err,
    );
    match input.fault() {
        Some(error) if ending.status == Refusal::Input.status() => {
            say_cause(rt.alloc(), request.file, error, &mut err);
        }
        _ => {}
    }
    match ending.fault {
        Some(fault) if err.is_terminal() => say_what_helps(fault.kind, request.decode, &mut err),
        _ => {}
    }
    ending.status
}

// Says why nothing is done, or help, or the version. On a terminal a line says which word names nothing.
fn say_why_not(rt: &HostRuntime, words: &[String], none: NoOrder) -> u8 {
    let lacking = match &none {
        NoOrder::Lacks(lack) => Some(*lack),
        NoOrder::Words(_) => None,
    };
    let mut err = rt.stderr();
    let status = decline(none, &mut rt.stdout(), &mut err);
    match lacking {
        Some(lack) if err.is_terminal() => {
            if let Some(word) = lacking_word(rt.alloc(), words, lack) {
                say_word(lack, word, &mut err);
            }
        }
        _ => {}
    }
    status
}

// The status with which the program ends, or why it cannot begin.
fn status(rt: &HostRuntime) -> Result<u8, Refusal> {
    let args = match env::args(rt) {
        Ok(args) => args,
        Err(error) if error.kind() == io::ErrorKind::OutOfMemory => return Err(Refusal::Memory),
        Err(_) => {
            let _ = writeln!(rt.stderr(), "a word is not UTF-8");
            return Ok(2);
        }
    };
    let words: Vec<String> = args
        .skip(1)
        .collect(rt.alloc())
        .map_err(|_| Refusal::Memory)?;
    match parse(rt.alloc(), &words) {
        Ok(Order::Show(request)) => Ok(run_command(rt, request)),
        Ok(Order::Explain(kind)) => Ok(explain_out(kind, &mut rt.stdout(), &mut rt.stderr())),
        Err(none) => Ok(say_why_not(rt, &words, none)),
    }
}

fn main(rt: HostRuntime) -> ExitCode {
    match status(&rt) {
        Ok(status) => ExitCode::from(status),
        Err(refusal) => ExitCode::from(refuse(refusal, &mut rt.stderr())),
    }
}
