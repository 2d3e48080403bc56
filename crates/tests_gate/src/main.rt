//! Threads take turns with one book of numbers, to which each adds its own: three with a
//! turn each, sixteen with a turn each, of which the first holds the book for as many
//! milliseconds as the argument says, and sixteen with a hundred turns each; then two passes
//! take turns by hand. It prints how many turns were served, how often each number stands in
//! the book, and what the passes told.
#![tactic(auto)]

ghost use Rattle.std.specs.Prelude.{◌*◌, ◌^◌, ◌≤◌, ◌<◌};

mod clients;
mod handover;
mod numbers;

use clients::run_all;
use handover::{Handover, hand_over};
use numbers::Numbers;
use std::alloc::AllocGlobal;
use std::sync::Wait;
use std::thread::Threads;
use std::time::{Clock, Duration};
use std::{env, io};

fn main(rt: HostRuntime) -> io::Result<()> {
    let mut words = env::args(&rt)?;
    let _name = words.next();
    let pause = match words.next() {
        Some(word) => word.as_str().parse::<u32>().unwrap_or(0),
        None => 0,
    };
    let none = Duration::from_millis(0);
    print_run(&rt, 3, 1, none)?;
    print_run(&rt, 16, 1, Duration::from_millis(u64::from(pause)))?;
    print_run(&rt, 16, 100, none)?;
    match hand_over(&rt, rt.alloc()) {
        Ok(told) => print_handover(&rt, &told),
        Err(_) => println!(rt; "no memory"),
    }
}

fn print_run<R: AllocGlobal + Print + Threads + Wait + Clock + Sync>(
    rt: &R,
    clients: u64,
    turns: u64,
    pause: Duration,
) -> io::Result<()>
    requires some { 1 ≤ turns }
    requires few { clients * turns < 2 ^ 62 }
{
    match run_all(rt, rt.alloc(), clients, turns, pause) {
        Ok((served, book)) => print_counts(rt, served, &book, clients),
        Err(_) => println!(rt; "no memory"),
    }
}

fn print_counts<R: AllocGlobal + Print>(
    rt: &R,
    served: u64,
    book: &Numbers,
    clients: u64,
) -> io::Result<()> {
    print!(rt;
        "book {} refused {} and served {served}:",
        book.name, book.refused
    )?;
    for number in 0..clients {
        let count = count_of(book.list.as_slice(), number);
        print!(rt; " {count}")?;
    }
    println!(rt; "")
}

fn count_of(list: &[u64], number: u64) -> u64 {
    let mut count = 0u64;
    for one in list {
        if *one == number {
            count = count.saturating_add(1);
        }
    }
    count
}

fn print_handover<R: AllocGlobal + Print>(rt: &R, told: &Handover) -> io::Result<()> {
    let Handover { open, closed, book } = told;
    print!(rt;
        "book {} refused {} and served {open}, then {closed}:",
        book.name, book.refused
    )?;
    for number in book.list.as_slice() {
        print!(rt; " {number}")?;
    }
    println!(rt; "")
}
