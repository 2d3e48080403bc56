//! The book at home, and while it is out.
ghost use Rattle.std.specs.Prelude.{◌≡◌, IfErr, IfOk};

use no_memory::NoMemory;
use std::alloc::Global;
use std::marker::Model;

/// The book where the gate keeps it: clauses see it as the book. It has memory of its own, so that
/// a turn moves only where it is.
#[derive(Drop)]
pub(crate) struct Home<S> {
    book: Box<S>,
}

impl<S> Model for Home<S> {
    ghost Value = { S };

    ghost view = { λ h. h.book.value };
}

impl<S> Home<S> {
    /// A book with memory of its own. For want of memory it is handed back.
    pub(crate) fn take_in(alloc: Global, book: S) -> Result<Home<S>, (S, NoMemory)>
        ensures home { IfOk result (λ home. home ≡ book) }
        ensures refused { IfErr result (λ e. e.0 ≡ book) }
    {
        match Box::new(alloc, book) {
            Ok(book) => Ok(Home { book }),
            Err(refused) => Err((refused.value, NoMemory)),
        }
    }

    /// The book, whose memory is given back.
    pub(crate) fn into_book(self) -> S
        ensures { result ≡ self }
    {
        let Home { book } = self;
        Box::into_inner(book)
    }

    /// The same book, out.
    pub(crate) fn take_out(self) -> Held<S>
        ensures { result ≡ self }
    {
        let Home { book } = self;
        Held { book }
    }
}

/// The book, while it is out: clauses see it as the book. It has to be
/// handed back with `Gate::leave`.
pub struct Held<S> {
    book: Box<S>,
}

impl<S> Model for Held<S> {
    ghost Value = { S };

    ghost view = { λ h. h.book.value };
}

impl<S> Held<S> {
    ghost use Rattle.std.specs.Borrow.{sem};
    ghost use Rattle.book_gate.specs.Books.{LendsBook};

    /// The book, to be read and changed in place.
    pub fn book(&mut self) -> &mut S
        ensures* lends { sem 𝓛 (LendsBook S.row self.entry result) }
        ensures found { result.now ≡ self.old }
    {
        self.book.as_mut()
    }

    /// The same book, to be kept at home.
    pub(crate) fn bring_home(self) -> Home<S>
        ensures { result ≡ self }
    {
        let Held { book } = self;
        Home { book }
    }
}
