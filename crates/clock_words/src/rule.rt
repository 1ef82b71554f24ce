//! The rule of the table, and its kinds of step.
use crate::story::Story;
use crate::view::{Shape, View};
use atomic_table::{Join, Play, Split, TableRule};
use std::marker::PhantomData;
use std::snapshot::Snapshot;

/// What the table is told when it is made.
pub(crate) struct Setup<S> {
    pub story: Snapshot<S>,
    pub shape: Shape,
}

impl<S> Drop for Setup<S> {
    fn drop(self) {
        let Self { story: _, shape: _ } = self;
    }
}

pub(crate) struct BoardRule<S> {
    story: PhantomData<S>,
}

impl<S: Story> TableRule<(), View, Setup<S>> for BoardRule<S> {
    ghost use Rattle.clock_words.specs.Rule.{IsKept};
    ghost use Rattle.clock_words.specs.Views.{maker};

    ghost holds = { λ setup. IsKept (S.lists setup.story.value) setup.shape };

    ghost first = { λ setup. maker (S.lists setup.story.value) setup.shape };
}

/// A load of a clock word.
pub(crate) struct Look;

impl Play<(), View> for Look {
    ghost use Rattle.clock_words.specs.Steps.{look};

    ghost then = { look };
}

/// A load of a due word.
pub(crate) struct Fetch;

impl Play<(), View> for Fetch {
    ghost use Rattle.clock_words.specs.Steps.{fetch};

    ghost then = { fetch };
}

/// A store of an own word.
pub(crate) struct Put;

impl Play<(), View> for Put {
    ghost use Rattle.clock_words.specs.Steps.{put};

    ghost then = { put };
}

/// A fetch_max of the own clock word.
pub(crate) struct Raise;

impl Play<(), View> for Raise {
    ghost use Rattle.clock_words.specs.Steps.{raise};

    ghost then = { raise };
}

/// A fetch_max of the stop word.
pub(crate) struct Call;

impl Play<(), View> for Call {
    ghost use Rattle.clock_words.specs.Steps.{call};

    ghost then = { call };
}

/// A load of the stop word.
pub(crate) struct Ask;

impl Play<(), View> for Ask {
    ghost use Rattle.clock_words.specs.Steps.{ask};

    ghost then = { ask };
}

/// The maker hands out the next slot.
pub(crate) struct HandOut;

impl Split<View> for HandOut {
    ghost use Rattle.clock_words.specs.Views.{after_handing, handed_view};

    ghost left = { after_handing };

    ghost right = { handed_view };
}

/// A seat takes in another one.
pub(crate) struct TakeIn;

impl Join<View> for TakeIn {
    ghost use Rattle.clock_words.specs.Views.{after_join, spent};

    ghost both = { after_join };

    ghost spent = { spent };
}
