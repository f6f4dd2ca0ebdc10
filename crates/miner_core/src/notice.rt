// What a miner tells.
ghost use Rattle.std.specs.Prelude.{◌≡◌, ◌++◌, IfOk, OnOk, map};
ghost use Rattle.std.specs.List.{flat_map};
ghost use Rattle.miner_core.specs.TurnViews.{speech_seen};
ghost use Rattle.miner_core.specs.Story.{shown_by};
ghost use Rattle.miner_core.specs.Views.{notice_seen, if_any, told_since};

use crate::speech::Speech;
use crate::telling::{Told, words_behind};
use program_trees::Shape;
use sc_text::Name;
use std::alloc::{AllocError, Global};
use value_steps::{Secrecy, Stage};

/// What a miner tells: words, of a value of this shape; a truth value is 1 or 0. A share of truth values has 64 of them in a word.
pub enum Notice {
    /// A value that all three have opened.
    Shown {
        shape: Shape,
        words: Vec<u64>,
    },
    /// A public value, under the name under which it is published.
    Published {
        name: Name,
        shape: Shape,
        words: Vec<u64>,
    },
    /// Its own share of a private one, which has so many elements.
    Handed {
        name: Name,
        shape: Shape,
        count: u64,
        words: Vec<u64>,
    },
}

// Written out, so that an early exit calls this once.
impl Drop for Notice {
    fn drop(self) {
        match self {
            Notice::Shown { shape: _, words: _ } => {}
            Notice::Published {
                name: _,
                shape: _,
                words: _,
            } => {}
            Notice::Handed {
                name: _,
                shape: _,
                count: _,
                words: _,
            } => {}
        }
    }
}

/// What a step tells that has opened these words, by a miner with this value as its last one.
fn notice_of(
    alloc: Global,
    speech: &Speech,
    opened: &[u64],
    last: &[u64],
) -> Result<Option<Notice>, AllocError>
    ensures { IfOk result (λ notice. if_any notice ≡ speech_seen speech.now opened.now last.now) }
{
    match speech {
        Speech::Nothing => Ok(None),
        Speech::Opens(shape) => {
            let words = Vec::from_slice(alloc, opened)?;
            Ok(Some(Notice::Shown {
                shape: *shape,
                words,
            }))
        }
        Speech::Gives(name, value) => {
            let name = name.copy(alloc)?;
            let shape = value.shape;
            match value.secrecy {
                Secrecy::Plain => {
                    let words = Vec::from_slice(alloc, &value.words)?;
                    Ok(Some(Notice::Published { name, shape, words }))
                }
                Secrecy::Private(_) => {
                    let count = value.size();
                    let words = Vec::from_slice(alloc, last)?;
                    Ok(Some(Notice::Handed {
                        name,
                        shape,
                        count,
                        words,
                    }))
                }
            }
        }
    }
}

/// Tells what a step tells, if it has made an event since so much was told.
pub(crate) fn tell(
    alloc: Global,
    speech: &Speech,
    before: Told,
    stage: &Stage<'_>,
    last: &[u64],
    notices: &mut Vec<Notice>,
) -> Result<(), AllocError>
    ensures { OnOk result (map notice_seen notices.new.items ≡ map notice_seen notices.old.items ++ told_since speech.now before stage.now last.now) }
{
    if stage.events.len() <= before.events {
        return Ok(());
    }
    let opened = words_behind(&stage.opened, before.opened);
    if let Some(notice) = notice_of(alloc, speech, opened, last)? {
        notices.push(notice)?;
    }
    Ok(())
}

// The words that a notice shows, if it tells of an opening, as further ones.
fn add_shown(words: &mut Vec<u64>, notice: &Notice) -> Result<(), AllocError>
    ensures { OnOk result (words.new.items ≡ words.old.items ++ shown_by (notice_seen notice.now)) }
{
    match notice {
        Notice::Shown {
            shape: _,
            words: shown,
        } => words.extend_from_slice(shown),
        Notice::Published {
            name: _,
            shape: _,
            words: _,
        } => Ok(()),
        Notice::Handed {
            name: _,
            shape: _,
            count: _,
            words: _,
        } => Ok(()),
    }
}

/// The words that were opened, one value after another, by what was told.
pub(crate) fn shown_words(alloc: Global, notices: &[Notice]) -> Result<Vec<u64>, AllocError>
    ensures { IfOk result (λ words. words.items ≡ flat_map shown_by (map notice_seen notices.now)) }
{
    let mut words = Vec::new(alloc);
    for notice in notices {
        add_shown(&mut words, notice)?;
    }
    Ok(words)
}
