//! A table's lines, one after another.

use crate::files::{NamedFile, add_line, begin_file, not_understood};
use crate::own::{Own, Watched};
use crate::paced::Heard;
use crate::signals::{Awaited, Signals, Whose};
use crate::together::{Seat, Together, sink_of};
use admission_rules::Wish;
use admission_rules::client_rules::ClientRules;
use osrd_stdcm::run;
use rail_types::Name;
use std::alloc::{AllocError, AllocGlobal, Global};
use std::sync::{Arc, Wait};
use std::thread::Threads;
use std::{io, mem, str};

// A rule that was handed in for a client, as it is seen from outside.
#[derive(Drop)]
struct Handed {
    client: String,
    watched: Arc<Watched, Global>,
}

// What the lines so far have made.
#[derive(Drop)]
struct Table {
    // What the outside's clocks are read with.
    host: HostRuntime,
    files: Vec<NamedFile>,
    // Whether the lines from here on are those of the last file.
    is_open: bool,
    outside: Together,
    // The rules for the next run, and all that were made for the case.
    rules: Vec<ClientRules<Own>>,
    handed: Vec<Handed>,
    // The first words of the replies of which only two words are printed.
    brief: String,
}

/// Carries out a table, and prints what comes of it. The host paces the clients.
pub fn carry_out<R: AllocGlobal + Print + Threads + Wait + Sync>(
    rt: &R,
    host: HostRuntime,
    lines: &str,
) -> io::Result<()> {
    let files = Vec::new(rt.alloc());
    let outside = Together::new(host, &files)?;
    let mut table = Table {
        host,
        files,
        is_open: false,
        outside,
        rules: Vec::new(rt.alloc()),
        handed: Vec::new(rt.alloc()),
        brief: String::new(rt.alloc()),
    };
    for line in lines.lines() {
        if table.is_open {
            take_file_line(&mut table, line)?;
        } else {
            carry_out_line(rt, &mut table, line)?;
        }
    }
    Ok(())
}

// A line of the last file, or its end.
fn take_file_line(table: &mut Table, line: &str) -> io::Result<()> {
    if line == "." {
        table.is_open = false;
        return Ok(());
    }
    add_line(&mut table.files, line)
}

// A table's first word, and the rest behind a space.
fn first_word(line: &str) -> (&str, &str) {
    match line.split_once(' ') {
        Some(both) => both,
        None => (line, ""),
    }
}

fn number_of(word: &str) -> io::Result<u64> {
    match word.parse::<u64>() {
        Ok(number) => Ok(number),
        Err(_) => Err(not_understood()),
    }
}

// A line outside files.
fn carry_out_line<R: AllocGlobal + Print + Threads + Wait + Sync>(
    rt: &R,
    table: &mut Table,
    line: &str,
) -> io::Result<()> {
    let (word, rest) = first_word(line);
    match word {
        "" | "#" => Ok(()),
        "file" => {
            table.is_open = true;
            begin_file(rt.alloc(), &mut table.files, rest)
        }
        "case" => {
            table.outside = Together::new(table.host, &table.files)?;
            table.handed = Vec::new(rt.alloc());
            table.brief = String::new(rt.alloc());
            println!(rt; "{rest}")
        }
        "A" => add_paced(&mut table.outside.a, rest),
        "B" => add_paced(&mut table.outside.b, rest),
        "pause" => {
            table.outside.pauses.push(number_of(rest)?)?;
            Ok(())
        }
        "meet" => {
            table.outside.meet = number_of(rest)?;
            Ok(())
        }
        "brief" => {
            table.brief = String::from_str(rt.alloc(), rest)?;
            Ok(())
        }
        "own" => add_rule(rt.alloc(), table, rest),
        "run" => run_words(rt, table, rest),
        "proofs" => print_proofs(rt, &table.outside.aside),
        "searches" => print_searches(rt, &table.outside.signals),
        "wishes" => print_wishes(rt, table),
        _ => Err(not_understood()),
    }
}

// A client's line, behind the numbers of what it waits for.
fn add_paced(seat: &mut Seat, rest: &str) -> io::Result<()> {
    let (of_a, rest) = first_word(rest);
    let (of_b, rest) = first_word(rest);
    let (searches, line) = first_word(rest);
    let awaited = Awaited {
        of_a: number_of(of_a)?,
        of_b: number_of(of_b)?,
        searches: number_of(searches)?,
        of_workers: 0,
    };
    seat.add(awaited, line)
}

// A rule of the table's own for a client.
fn add_rule(alloc: Global, table: &mut Table, client: &str) -> io::Result<()> {
    let watched = Watched::new(alloc)?;
    let own = Own::new(Arc::try_clone(&watched)?);
    table.handed.push(Handed {
        client: String::from_str(alloc, client)?,
        watched,
    })?;
    let rules = rules_of(alloc, client, own)?;
    table.rules.push(rules)?;
    Ok(())
}

fn rules_of(alloc: Global, client: &str, own: Own) -> io::Result<ClientRules<Own>> {
    let Ok(client) = Name::from_bytes(alloc, client.as_bytes()) else {
        return Err(AllocError.into());
    };
    let mut rules = Vec::new(alloc);
    rules.push(own)?;
    Ok(ClientRules { client, rules })
}

// The words of a line, each behind one space.
fn words_of(alloc: Global, line: &str) -> Result<Vec<String>, AllocError> {
    let mut words = Vec::new(alloc);
    for word in line.split(' ') {
        words.push(String::from_str(alloc, word)?)?;
    }
    Ok(words)
}

// Runs a command with a fresh report, and prints its status and what its report
// and the clients' sinks hold.
fn run_words<R: AllocGlobal + Print + Threads + Wait + Sync>(
    rt: &R,
    table: &mut Table,
    words: &str,
) -> io::Result<()> {
    let report = sink_of(rt.alloc(), Whose::Nobodys, &table.outside.signals)?;
    table.outside.report = Some(report);
    let words = words_of(rt.alloc(), words)?;
    let rules = mem::replace(&mut table.rules, Vec::new(rt.alloc()));
    let status = run(rt, &words, &mut table.outside, rules).number();
    println!(rt; "  status {status}")?;
    let brief = table.brief.as_str();
    print_lines(rt, "report", &table.outside.report, "")?;
    print_lines(rt, "A", &table.outside.a.sink, brief)?;
    print_lines(rt, "B", &table.outside.b.sink, brief)?;
    print_rules(rt, table)
}

// Prints what became of the rules that were handed in.
fn print_rules<R: Print>(rt: &R, table: &Table) -> io::Result<()> {
    for rule in &table.handed {
        let client = rule.client.as_str();
        let read = rule.watched.tallies();
        let drops = rule.watched.drops();
        let before = rule.watched.tallies_at_drop();
        println!(rt;
            "  own-7 of {client}: tally read {read}, dropped {drops}, read before the drop {before}"
        )?;
    }
    Ok(())
}

// Prints the wish that each rule was asked of last.
fn print_wishes<R: Print>(rt: &R, table: &Table) -> io::Result<()> {
    for rule in &table.handed {
        let client = rule.client.as_str();
        match rule.watched.wish() {
            Some(wish) => print_wish(rt, client, &wish)?,
            None => println!(rt; "  own-7 of {client}: asked of nothing")?,
        }
    }
    Ok(())
}

fn print_wish<R: Print>(rt: &R, client: &str, wish: &Wish) -> io::Result<()> {
    let length_m = wish.length_m;
    let (from, to) = (wish.depart.from, wish.depart.to);
    let (after, before) = (wish.arrive.from, wish.arrive.to);
    println!(rt;
        "  own-7 of {client}: {length_m} m, departs {from} to {to}, arrives {after} to {before}"
    )
}

// What a sink holds, as lines.
fn text_of(sink: &Option<Heard>) -> &str {
    match sink {
        Some(heard) => str::from_utf8(heard.inside.bytes()).unwrap_or("is no text"),
        None => "is not put back",
    }
}

// The first two words of a line.
fn beginning_of(line: &str) -> &str {
    let (first, rest) = first_word(line);
    let (second, _) = first_word(rest);
    let length = first.len().saturating_add(1).saturating_add(second.len());
    match line.split_at_checked(length) {
        Some((beginning, _)) => beginning,
        None => line,
    }
}

// Whether one of these words, each behind one space, is the first of a line.
fn is_brief(line: &str, words: &str) -> bool {
    let (first, _) = first_word(line);
    for word in words.split(' ') {
        if word == first {
            return true;
        }
    }
    false
}

// Prints the lines of a sink, and two words of those that begin with one of the brief words.
fn print_lines<R: Print>(rt: &R, name: &str, sink: &Option<Heard>, brief: &str) -> io::Result<()> {
    for line in text_of(sink).lines() {
        let told = if is_brief(line, brief) {
            beginning_of(line)
        } else {
            line
        };
        println!(rt; "  {name}: {told}")?;
    }
    Ok(())
}

// Prints the first line of each proof that went aside.
fn print_proofs<R: Print>(rt: &R, aside: &Option<Heard>) -> io::Result<()> {
    for line in text_of(aside).lines() {
        if line.starts_with("proof ") {
            println!(rt; "  aside: {line}")?;
        }
    }
    Ok(())
}

// Prints the numbers of A's searches that found a path, how many searches of workers did, and how
// many searches waited in vain.
fn print_searches<R: Print>(rt: &R, signals: &Signals) -> io::Result<()> {
    let numbers = signals.numbers();
    let found = signals.of_workers();
    let in_vain = signals.in_vain();
    println!(rt; "  searches of A {numbers}, of workers {found}, waits in vain {in_vain}")
}
