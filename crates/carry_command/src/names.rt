//! The names that `carry` is given.

ghost use Rattle.std.specs.Prelude.{◌≡◌, option_map};

use std::marker::Model;

/// The names of the network's file, the base timetable's and the new journal, of the old journal
/// and the base timetable's file to which it belongs, and of the file for the lines of entries that
/// are left out, where such may be.
#[derive(Debug, Drop)]
pub struct CarryNames<'a> {
    network: &'a str,
    base: &'a str,
    journal: &'a str,
    from: &'a str,
    from_base: &'a str,
    left: Option<&'a str>,
}

impl<'a> Model for CarryNames<'a> {
    ghost use Rattle.std.specs.Prelude.{option_map};
    ghost use Rattle.carry_command.specs.Names.{Names};

    ghost Value = { Names };

    ghost view = { λ a. record {
      network = a.network.now;
      base = a.base.now;
      journal = a.journal.now;
      from = a.from.now;
      from_base = a.from_base.now;
      left = option_map (λ name. name.now) a.left;
    } };
}

impl<'a> CarryNames<'a> {
    /// These names. Where `left` is none, no entry may be left out.
    pub fn new(
        network: &'a str,
        base: &'a str,
        journal: &'a str,
        from: &'a str,
        from_base: &'a str,
        left: Option<&'a str>,
    ) -> CarryNames<'a>
        ensures { result ≡ record {
          network = network.now;
          base = base.now;
          journal = journal.now;
          from = from.now;
          from_base = from_base.now;
          left = option_map (λ name. name.now) left.entry;
        } }
    {
        CarryNames {
            network,
            base,
            journal,
            from,
            from_base,
            left,
        }
    }

    /// The name of the network's file.
    pub fn network(&self) -> &'a str
        ensures { result.now ≡ self.now.network }
    {
        self.network
    }

    /// The name of the base timetable's file.
    pub fn base(&self) -> &'a str
        ensures { result.now ≡ self.now.base }
    {
        self.base
    }

    /// The name of the new journal.
    pub fn journal(&self) -> &'a str
        ensures { result.now ≡ self.now.journal }
    {
        self.journal
    }

    /// The name of the old journal.
    pub fn from(&self) -> &'a str
        ensures { result.now ≡ self.now.from }
    {
        self.from
    }

    /// The name of the base timetable's file to which the old journal belongs.
    pub fn from_base(&self) -> &'a str
        ensures { result.now ≡ self.now.from_base }
    {
        self.from_base
    }

    /// The name of the file for the lines of entries that are left out.
    pub fn left(&self) -> Option<&'a str>
        ensures { option_map (λ name. name.now) result ≡ self.now.left }
    {
        self.left
    }
}
