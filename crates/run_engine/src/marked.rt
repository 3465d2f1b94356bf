//! A setting with marks beside the words of the program's code.
ghost use Rattle.std.specs.Prelude.{◌≡◌, ◌≤◌, ◌+◌, false, length, None, IfOk};
ghost use Rattle.coz_types.specs.declared.TheConstants.{LOAD_END};
ghost use Rattle.progress_points.specs.Points.{point_of};
ghost use Rattle.run_engine.specs.Marked.{IsMarked, AreMarks};
ghost use Rattle.code_words.specs.declared.span.TheConstants.{MAX_WORDS};

use crate::{Choice, Setting};
use code_words::{Mark, MarkedLine, Marks, code_span};
use coz_types::{Address, Image, LineId};
use std::alloc::{AllocError, Global};
use std::marker::Model;

/// The mark of an address: whether it has the selected line and whether it has a point. Of other
/// words it isn't asked which line they have.
fn mark_of(setting: &Setting, address: Address) -> Mark
    ensures { IsMarked setting.now address result }
{
    let line = if setting.has_selected(address) {
        MarkedLine::Selected
    } else {
        MarkedLine::Other
    };
    Mark {
        line,
        point: setting.points.point_at(address).is_some(),
    }
}

/// Marks each word for a setting.
fn mark_words(setting: &Setting, marks: &mut Marks)
    requires low { marks.old.start ≤ LOAD_END }
    requires few { length marks.old.marks ≤ MAX_WORDS }
    ensures marks { AreMarks setting.now marks.new }
    ensures start { marks.new.start ≡ marks.old.start }
    ensures count { length marks.new.marks ≡ length marks.old.marks }
{
    let start = marks.start();
    for place in 0..marks.count() {
        marks.set(place, mark_of(setting, start + 4 * place as u64));
    }
}

/// A setting, and marks of the words of the program's code: the selected line and the progress
/// points. Contracts see the setting. Where no mark is, a hart goes on without a question.
#[derive(Drop)]
pub struct MarkedSetting<'a> {
    setting: Setting<'a>,
    marks: Marks,
}

impl<'a> Model for MarkedSetting<'a> {
    ghost use Rattle.run_engine.specs.declared.choice.Setting.{Setting};
    ghost use Rattle.run_engine.specs.Marked.{IsMarkedSetting};

    ghost Value = { Setting };

    ghost view = { λ m. m.setting };

    ghost invariant = { λ m. IsMarkedSetting m.setting m.marks };
}

impl<'a> MarkedSetting<'a> {
    /// A setting of runs of a program.
    pub fn new(
        alloc: Global,
        image: &Image,
        setting: Setting<'a>,
    ) -> Result<MarkedSetting<'a>, AllocError>
        ensures { IfOk result (λ marked. marked ≡ setting.entry) }
    {
        let code = code_span(image);
        let mut marks = Marks::new(alloc, code.start, code.count)?;
        mark_words(&setting, &mut marks);
        Ok(MarkedSetting { setting, marks })
    }

    /// The setting.
    #[inline(always)]
    pub fn setting(&self) -> &Setting<'a>
        ensures { result.now ≡ self.now }
    {
        &self.setting
    }

    /// The options.
    #[inline(always)]
    pub fn choice(&self) -> Choice
        ensures { result ≡ self.now.choice }
    {
        self.setting.choice
    }

    /// The marks.
    #[inline(always)]
    pub(crate) fn marks(&self) -> &Marks
        ensures { AreMarks self.now result.now }
    {
        &self.marks
    }

    /// Whether a progress point may be at an address: false only if none is.
    #[inline(always)]
    pub(crate) fn may_visit(&self, address: Address) -> bool
        ensures { result ≡ false → point_of self.now.points.now address ≡ None }
    {
        match self.marks.at(address) {
            Some(mark) => mark.point,
            None => self.setting.points.point_at(address).is_some(),
        }
    }

    /// Sets the speedup, in per cent.
    pub fn set_speedup(&mut self, speedup: u8)
        ensures { self.new ≡ record self.old {
          choice = record self.old.choice { speedup = speedup };
        } }
    {
        self.setting.choice.speedup = speedup;
    }

    /// Selects another line, or none.
    pub fn select(&mut self, line: Option<LineId>)
        ensures { self.new ≡ record self.old {
          choice = record self.old.choice { selected = line };
        } }
    {
        self.setting.choice.selected = line;
        mark_words(&self.setting, &mut self.marks);
    }

    /// Makes this setting another one of the same program. It takes no memory.
    pub fn copy_from(&mut self, other: &MarkedSetting<'a>)
        ensures { self.new ≡ other.now }
    {
        self.setting = other.setting;
        let is_alike = self.marks.start() == other.marks.start()
            && self.marks.count() == other.marks.count();
        if is_alike {
            self.marks.copy_from(&other.marks);
        } else {
            mark_words(&self.setting, &mut self.marks);
        }
    }
}
