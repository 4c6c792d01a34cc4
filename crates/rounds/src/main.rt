// Runs a script of a trading session, from a file or from standard input, and prints what it carried out;
// asked to, it then shows the views of a contract on standard error.
#![tactic(auto)]

mod arguments;

use anyhow::anyhow;
use arguments::{Asked, arguments};
use reading::reader::calls::SCRIPT_MOST;
use reading::text::TextLog;
use runs::run::{Market, Ran, run};
use screens::screen::screen;
use std::fs::File;
use std::io::{Read, Write};

// One byte more than a script may have is enough to see that it is too long. `as`: there is no From of usize for u64.
const READ_MOST: u64 = SCRIPT_MOST as u64 + 1;

fn read_some<T: Read + Drop>(rt: &HostRuntime, source: T) -> anyhow::Result<Vec<u8>> {
    let mut bytes = Vec::new(rt.alloc());
    source.take(READ_MOST).read_to_end(&mut bytes)?;
    Ok(bytes)
}

// The bytes of the file that is named, or of standard input where none is.
fn read_script(rt: &HostRuntime, path: Option<String>) -> anyhow::Result<Vec<u8>> {
    match path {
        Some(path) => read_some(rt, File::open(rt, path.as_str())?),
        None => read_some(rt, rt.stdin()),
    }
}

// Shows the views of a contract as they are after the run.
fn show_views(rt: &HostRuntime, session: &Market, contract: u32) -> anyhow::Result<()> {
    let mut shown = TextLog::new(rt.alloc());
    if let Err(fault) = screen(session, contract, &mut shown) {
        let number = fault.number();
        return Err(anyhow!("the views of contract {contract} are refused by {number}"));
    }
    let text = shown.into_text()?;
    rt.stderr().write_all(text.as_slice())?;
    Ok(())
}

fn main(rt: HostRuntime) -> anyhow::Result<()> {
    let Asked { views, script } = arguments(&rt)?;
    let bytes = read_script(&rt, script)?;
    let Ran { output, session } = run(bytes.as_slice(), TextLog::new(rt.alloc()));
    let text = output.into_text()?;
    rt.stdout().write_all(text.as_slice())?;
    if let (Some(contract), Some(session)) = (views, &session) {
        show_views(&rt, session, contract)?;
    }
    Ok(())
}
