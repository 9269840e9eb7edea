//! Reads suffix rules from a file and hosts from standard input, and prints the registrable domain of each host, or `-`.
//!
//! `suffix_lookup index FILE` looks the rules up by their texts, and `suffix_lookup plain FILE` goes over the list.
#![tactic(auto)]

ghost use Rattle.std.specs.Prelude.{◌<◌, length, IfSome};

use anyhow::{Context, Result, bail};
use public_suffix::{PlainRules, Rules};
use std::alloc::{AllocError, Global};
use std::io::Write;
use std::rt::Runtime;
use std::{env, fs, io};

/// The rules, by one of the two ways to look them up.
#[derive(Drop)]
enum Lookup {
    Index(Rules),
    Plain(PlainRules),
}

impl Lookup {
    fn registrable(&self, host: &str) -> Option<usize>
        ensures { IfSome result (λ start. start < length host.now) }
    {
        match self {
            Lookup::Index(rules) => rules.registrable(host),
            Lookup::Plain(rules) => rules.registrable(host),
        }
    }
}

fn read_rules(alloc: Global, way: &str, text: &str) -> Result<Lookup> {
    match way {
        "index" => Ok(Lookup::Index(Rules::read(alloc, text.as_bytes())?)),
        "plain" => Ok(Lookup::Plain(PlainRules::read(alloc, text.as_bytes())?)),
        _ => bail!("neither `index` nor `plain`"),
    }
}

/// The registrable domain of each host, or `-`, a line each.
fn answers(alloc: Global, rules: &Lookup, hosts: &str) -> Result<Vec<u8>, AllocError> {
    let mut answers = Vec::new(alloc);
    for host in hosts.lines() {
        match rules.registrable(host) {
            Some(start) => answers.extend_from_slice(&host.as_bytes()[start..])?,
            None => answers.push(b'-')?,
        }
        answers.push(b'\n')?;
    }
    Ok(answers)
}

fn run<R: Runtime + AllocGlobal>(rt: &R) -> Result<()> {
    let mut words = env::args(rt)?;
    let _program = words.next();
    let (Some(way), Some(file)) = (words.next(), words.next()) else {
        bail!("usage: suffix_lookup index|plain FILE");
    };
    let text = fs::read_to_string(rt, file.as_str()).context("reading the rules")?;
    let rules = read_rules(rt.alloc(), way.as_str(), text.as_str())?;
    let hosts = io::read_to_string(rt.alloc(), rt.reader())?;
    let answers = answers(rt.alloc(), &rules, hosts.as_str())?;
    io::writer(rt).write_all(answers.as_slice())?;
    Ok(())
}

fn main(rt: HostRuntime) -> Result<()> {
    run(&rt)
}
