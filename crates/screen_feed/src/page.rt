// The two copies of what is shown, and the rule between them.
ghost use Rattle.std.specs.Prelude.{◌≡◌, IfOk};

use crate::book::Log;
use crate::sheet::Sheet;
use atomic_table::{Join, Split};
use crossbeam_utils::rule::{Outcome, Protocol};
use left_right::Absorb;
use std::alloc::AllocError;
use std::marker::Model;

/// A sheet, with what was known of the book as it was begun.
#[derive(Drop)]
pub(crate) struct Page {
    pub sheet: Sheet,
    pub round: u64,
    pub seen: Log,
}

impl Model for Page {
    ghost use Rattle.screen_feed.specs.Pages.{IsPage, PageState};

    ghost Value = { PageState };

    ghost view = { λ p. record { sheet = p.sheet; book = p.seen.book; log = p.seen.log } };

    ghost invariant = { λ p. IsPage
        (record { sheet = p.sheet; book = p.seen.book; log = p.seen.log }) p.round };
}

impl Page {
    /// The same page. At `Err` its sheet can have no more owners.
    pub fn again(&self) -> Result<Page, AllocError>
        ensures same { IfOk result (λ page. page ≡ self.now) }
    {
        let Ok(sheet) = self.sheet.another() else {
            return Err(AllocError);
        };
        Ok(Page {
            sheet,
            round: self.round,
            seen: self.seen.again(),
        })
    }
}

impl Absorb<Page> for Page {
    type State = Page;

    ghost state = { λ s. s };

    ghost applied = { λ s o. o };

    fn absorb_first(&mut self, operation: &Page, _other: &Page) -> Result<(), AllocError> {
        *self = operation.again()?;
        Ok(())
    }

    fn absorb_second(&mut self, operation: Page, _other: &Page) -> Result<(), Page> {
        *self = operation;
        Ok(())
    }
}

/// The rule of a pair of copies. A screen's view is the page that it has seen last.
pub(crate) struct PairRule;

impl Protocol<Page, Option<Page>> for PairRule {
    ghost use Rattle.std.specs.Prelude.{None};
    ghost use Rattle.screen_feed.specs.Pages.{Keeps};

    ghost holds = { Keeps };

    ghost first = { None };
}

/// The page that is shown is seen.
pub(crate) struct LookAtPage;

impl Outcome<Page, Option<Page>> for LookAtPage {
    ghost use Rattle.screen_feed.specs.Pages.{LooksAtPage};

    ghost then = { LooksAtPage };
}

/// The writer tells its screen which page was published first.
pub(crate) struct Tell;

impl Split<Option<Page>> for Tell {
    ghost left = { λ v. v };

    ghost right = { λ v. v };
}

impl Join<Option<Page>> for Tell {
    ghost use Rattle.std.specs.Prelude.{None};

    ghost both = { λ v w. w };

    ghost spent = { None };
}
