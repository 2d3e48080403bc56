//! The options that stand once, command by command, parsed by `clap`.

ghost use Rattle.std.specs.Prelude.{◌≡◌, IfOk};

use crate::names::{FileNames, StretchWords};
use crate::parsing::{Named, first_value, taken_back};
use command_line::Text;
use no_memory::NoMemory;
use std::alloc::Global;

/// The values of the options of `list` that stand once.
#[derive(Debug, Drop)]
pub struct ListTexts {
    pub network: Text,
    pub out: Text,
}

/// Hands `list` with these options to `clap`, and takes its values back.
pub fn parse_list(alloc: Global, network: &str, out: &str) -> Result<ListTexts, NoMemory>
    ensures network { IfOk result (λ texts. texts.network ≡ network.now) }
    ensures out { IfOk result (λ texts. texts.out ≡ out.now) }
{
    let options = [Named("network", network), Named("out", out)];
    let mut values = taken_back(alloc, "list", &options)?;
    Ok(ListTexts {
        network: first_value(&mut values),
        out: first_value(&mut values),
    })
}

/// The values of the options of `init` that stand once.
#[derive(Debug, Drop)]
pub struct InitTexts {
    pub network: Text,
    pub base: Text,
    pub journal: Text,
}

/// Hands `init` with these options to `clap`, and takes its values back.
pub fn parse_init(
    alloc: Global,
    network: &str,
    base: &str,
    journal: &str,
) -> Result<InitTexts, NoMemory>
    ensures network { IfOk result (λ texts. texts.network ≡ network.now) }
    ensures base { IfOk result (λ texts. texts.base ≡ base.now) }
    ensures journal { IfOk result (λ texts. texts.journal ≡ journal.now) }
{
    let options = [
        Named("network", network),
        Named("base", base),
        Named("journal", journal),
    ];
    let mut values = taken_back(alloc, "init", &options)?;
    Ok(InitTexts {
        network: first_value(&mut values),
        base: first_value(&mut values),
        journal: first_value(&mut values),
    })
}

/// The values of the options of `init` with `from`.
#[derive(Debug, Drop)]
pub struct MoveTexts {
    pub network: Text,
    pub base: Text,
    pub journal: Text,
    pub from: Text,
}

/// Hands `init` with these options, `from` among them, to `clap`, and takes its values back.
pub fn parse_move(
    alloc: Global,
    network: &str,
    base: &str,
    journal: &str,
    from: &str,
) -> Result<MoveTexts, NoMemory>
    ensures network { IfOk result (λ texts. texts.network ≡ network.now) }
    ensures base { IfOk result (λ texts. texts.base ≡ base.now) }
    ensures journal { IfOk result (λ texts. texts.journal ≡ journal.now) }
    ensures from { IfOk result (λ texts. texts.from ≡ from.now) }
{
    let options = [
        Named("network", network),
        Named("base", base),
        Named("journal", journal),
        Named("from", from),
    ];
    let mut values = taken_back(alloc, "init", &options)?;
    Ok(MoveTexts {
        network: first_value(&mut values),
        base: first_value(&mut values),
        journal: first_value(&mut values),
        from: first_value(&mut values),
    })
}

/// The values of the options of `stairs`.
#[derive(Debug, Drop)]
pub struct StairsTexts {
    pub network: Text,
    pub base: Text,
    pub journal: Text,
    pub entry: Text,
    pub out: Text,
}

/// Hands `stairs` with these options to `clap`, and takes its values back.
pub fn parse_stairs(
    alloc: Global,
    network: &str,
    base: &str,
    journal: &str,
    entry: &str,
    out: &str,
) -> Result<StairsTexts, NoMemory>
    ensures network { IfOk result (λ texts. texts.network ≡ network.now) }
    ensures base { IfOk result (λ texts. texts.base ≡ base.now) }
    ensures journal { IfOk result (λ texts. texts.journal ≡ journal.now) }
    ensures entry { IfOk result (λ texts. texts.entry ≡ entry.now) }
    ensures out { IfOk result (λ texts. texts.out ≡ out.now) }
{
    let options = [
        Named("network", network),
        Named("base", base),
        Named("journal", journal),
        Named("entry", entry),
        Named("out", out),
    ];
    let mut values = taken_back(alloc, "stairs", &options)?;
    Ok(StairsTexts {
        network: first_value(&mut values),
        base: first_value(&mut values),
        journal: first_value(&mut values),
        entry: first_value(&mut values),
        out: first_value(&mut values),
    })
}

/// The values of the options of `capacity`.
#[derive(Debug, Drop)]
pub struct CapacityTexts {
    pub network: Text,
    pub base: Text,
    pub journal: Text,
    pub first: Text,
    pub last: Text,
    pub from: Text,
    pub to: Text,
    pub out: Text,
}

/// Hands `capacity` with these options to `clap`, and takes its values back.
pub fn parse_capacity(
    alloc: Global,
    names: &FileNames<'_>,
    stretch: &StretchWords<'_>,
    out: &str,
) -> Result<CapacityTexts, NoMemory>
    ensures network { IfOk result (λ texts. texts.network ≡ names.now.network.now) }
    ensures base { IfOk result (λ texts. texts.base ≡ names.now.base.now) }
    ensures journal { IfOk result (λ texts. texts.journal ≡ names.now.journal.now) }
    ensures first { IfOk result (λ texts. texts.first ≡ stretch.now.first.now) }
    ensures last { IfOk result (λ texts. texts.last ≡ stretch.now.last.now) }
    ensures from { IfOk result (λ texts. texts.from ≡ stretch.now.from.now) }
    ensures to { IfOk result (λ texts. texts.to ≡ stretch.now.to.now) }
    ensures out { IfOk result (λ texts. texts.out ≡ out.now) }
{
    let options = [
        Named("network", names.network),
        Named("base", names.base),
        Named("journal", names.journal),
        Named("first", stretch.first),
        Named("last", stretch.last),
        Named("from", stretch.from),
        Named("to", stretch.to),
        Named("out", out),
    ];
    let mut values = taken_back(alloc, "capacity", &options)?;
    Ok(CapacityTexts {
        network: first_value(&mut values),
        base: first_value(&mut values),
        journal: first_value(&mut values),
        first: first_value(&mut values),
        last: first_value(&mut values),
        from: first_value(&mut values),
        to: first_value(&mut values),
        out: first_value(&mut values),
    })
}

/// The values of the options of `serve` that stand once.
#[derive(Debug, Drop)]
pub struct ServeTexts {
    pub network: Text,
    pub base: Text,
    pub journal: Text,
    pub trains: Text,
}

/// Hands `serve` with these options to `clap`, and takes its values back.
pub fn parse_serve(
    alloc: Global,
    names: &FileNames<'_>,
    trains: &str,
) -> Result<ServeTexts, NoMemory>
    ensures network { IfOk result (λ texts. texts.network ≡ names.now.network.now) }
    ensures base { IfOk result (λ texts. texts.base ≡ names.now.base.now) }
    ensures journal { IfOk result (λ texts. texts.journal ≡ names.now.journal.now) }
    ensures trains { IfOk result (λ texts. texts.trains ≡ trains.now) }
{
    let options = [
        Named("network", names.network),
        Named("base", names.base),
        Named("journal", names.journal),
        Named("trains", trains),
    ];
    let mut values = taken_back(alloc, "serve", &options)?;
    Ok(ServeTexts {
        network: first_value(&mut values),
        base: first_value(&mut values),
        journal: first_value(&mut values),
        trains: first_value(&mut values),
    })
}

/// The values of the options of `demo`.
#[derive(Debug, Drop)]
pub struct DemoTexts {
    pub number: Text,
    pub out: Text,
}

/// Hands `demo` with these options to `clap`, and takes its values back.
pub fn parse_demo(alloc: Global, number: &str, out: &str) -> Result<DemoTexts, NoMemory>
    ensures number { IfOk result (λ texts. texts.number ≡ number.now) }
    ensures out { IfOk result (λ texts. texts.out ≡ out.now) }
{
    let options = [Named("number", number), Named("out", out)];
    let mut values = taken_back(alloc, "demo", &options)?;
    Ok(DemoTexts {
        number: first_value(&mut values),
        out: first_value(&mut values),
    })
}

/// The values of the options of `check`.
#[derive(Debug, Drop)]
pub struct CheckTexts {
    pub network: Text,
    pub base: Text,
    pub journal: Text,
    pub trains: Text,
    pub proof: Text,
}

/// Hands `check` with these options to `clap`, and takes its values back.
pub fn parse_check(
    alloc: Global,
    names: &FileNames<'_>,
    trains: &str,
    proof: &str,
) -> Result<CheckTexts, NoMemory>
    ensures network { IfOk result (λ texts. texts.network ≡ names.now.network.now) }
    ensures base { IfOk result (λ texts. texts.base ≡ names.now.base.now) }
    ensures journal { IfOk result (λ texts. texts.journal ≡ names.now.journal.now) }
    ensures trains { IfOk result (λ texts. texts.trains ≡ trains.now) }
    ensures proof { IfOk result (λ texts. texts.proof ≡ proof.now) }
{
    let options = [
        Named("network", names.network),
        Named("base", names.base),
        Named("journal", names.journal),
        Named("trains", trains),
        Named("proof", proof),
    ];
    let mut values = taken_back(alloc, "check", &options)?;
    Ok(CheckTexts {
        network: first_value(&mut values),
        base: first_value(&mut values),
        journal: first_value(&mut values),
        trains: first_value(&mut values),
        proof: first_value(&mut values),
    })
}

/// The values of the options of `batch` that stand once.
#[derive(Debug, Drop)]
pub struct BatchTexts {
    pub network: Text,
    pub base: Text,
    pub journal: Text,
    pub trains: Text,
    pub client: Text,
    pub workers: Text,
}

/// Hands `batch` with these options to `clap`, and takes its values back.
pub fn parse_batch(
    alloc: Global,
    names: &FileNames<'_>,
    trains: &str,
    client: &str,
    workers: &str,
) -> Result<BatchTexts, NoMemory>
    ensures network { IfOk result (λ texts. texts.network ≡ names.now.network.now) }
    ensures base { IfOk result (λ texts. texts.base ≡ names.now.base.now) }
    ensures journal { IfOk result (λ texts. texts.journal ≡ names.now.journal.now) }
    ensures trains { IfOk result (λ texts. texts.trains ≡ trains.now) }
    ensures client { IfOk result (λ texts. texts.client ≡ client.now) }
    ensures workers { IfOk result (λ texts. texts.workers ≡ workers.now) }
{
    let options = [
        Named("network", names.network),
        Named("base", names.base),
        Named("journal", names.journal),
        Named("trains", trains),
        Named("client", client),
        Named("workers", workers),
    ];
    let mut values = taken_back(alloc, "batch", &options)?;
    Ok(BatchTexts {
        network: first_value(&mut values),
        base: first_value(&mut values),
        journal: first_value(&mut values),
        trains: first_value(&mut values),
        client: first_value(&mut values),
        workers: first_value(&mut values),
    })
}

/// The values of the options of `carry`, without that of `left`.
#[derive(Debug, Drop)]
pub struct CarryTexts {
    pub network: Text,
    pub base: Text,
    pub journal: Text,
    pub from: Text,
    pub from_base: Text,
}

/// Hands `carry` with these options to `clap`, and takes its values back.
pub fn parse_carry(
    alloc: Global,
    names: &FileNames<'_>,
    from: &str,
    from_base: &str,
) -> Result<CarryTexts, NoMemory>
    ensures network { IfOk result (λ texts. texts.network ≡ names.now.network.now) }
    ensures base { IfOk result (λ texts. texts.base ≡ names.now.base.now) }
    ensures journal { IfOk result (λ texts. texts.journal ≡ names.now.journal.now) }
    ensures from { IfOk result (λ texts. texts.from ≡ from.now) }
    ensures from_base { IfOk result (λ texts. texts.from_base ≡ from_base.now) }
{
    let options = [
        Named("network", names.network),
        Named("base", names.base),
        Named("journal", names.journal),
        Named("from", from),
        Named("from-base", from_base),
    ];
    let mut values = taken_back(alloc, "carry", &options)?;
    Ok(CarryTexts {
        network: first_value(&mut values),
        base: first_value(&mut values),
        journal: first_value(&mut values),
        from: first_value(&mut values),
        from_base: first_value(&mut values),
    })
}

/// Hands `carry` with `left` alone, which not all its words have, to `clap`, and takes its value
/// back.
pub fn parse_left(alloc: Global, left: &str) -> Result<Text, NoMemory>
    ensures { IfOk result (λ text. text ≡ left.now) }
{
    let options = [Named("left", left)];
    let mut values = taken_back(alloc, "carry", &options)?;
    Ok(first_value(&mut values))
}
