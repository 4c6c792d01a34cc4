// What the command line asks for.
use anyhow::anyhow;
use numbers::{Unit, read};
use std::env;

pub(crate) struct Asked {
    // the contract whose views are shown after the run
    pub(crate) views: Option<u32>,
    // the file that holds the script, none for standard input
    pub(crate) script: Option<String>,
}

fn usage() -> anyhow::Error {
    anyhow!("usage: rounds [--views CONTRACT] [SCRIPT]")
}

fn contract(word: &str) -> anyhow::Result<u32> {
    read(word.as_bytes(), Unit::Count).map_err(|_| usage())
}

pub(crate) fn arguments(rt: &HostRuntime) -> anyhow::Result<Asked> {
    let mut args = env::args(rt)?;
    let _program = args.next();
    let mut script = args.next();
    let mut views = None;
    if script
        .as_ref()
        .is_some_and(|word| word.as_str() == "--views")
    {
        let word = args.next().ok_or_else(usage)?;
        views = Some(contract(word.as_str())?);
        script = args.next();
    }
    match args.next() {
        None => Ok(Asked { views, script }),
        Some(_) => Err(usage()),
    }
}
