//! The sections of a trace, judged one after another.

ghost use Rattle.std.specs.Prelude.{◌≡◌, ◌∷◌, ◌++◌, [], List, IfOk, OnOk};
ghost use Rattle.cm_mtrace.specs.Trace.{IsItem, Section, items_of};
ghost use Rattle.cm_mtrace.specs.declared.Item.{Item};

use cm_judge::Judge;
use cm_model::{List, Name, NoMemory};
use cm_mtrace::Item;
use std::alloc::Global;

/// A section that ended: its name and its conflict lines.
#[derive(Debug, Drop)]
pub struct Judged {
    pub name: Name,
    pub lines: List<u64>,
}

/// The sections of a trace as far as it was read: those that ended, and the one whose entries the judge has.
#[derive(Debug, Drop)]
pub struct Sections {
    pub alloc: Global,
    pub judge: Judge,
    pub current: Option<Name>,
    pub ended: Vec<Judged>,
}

impl Sections {
    ghost use Rattle.cm_top.specs.inner.Sections.{AllEnded, AreJudged, Have};

    pub fn new(alloc: Global) -> Sections
        ensures { Have result [] }
    {
        Sections {
            alloc,
            judge: Judge::new(alloc),
            current: None,
            ended: Vec::new(alloc),
        }
    }

    // Ends the section that is being read.
    fn end(&mut self) -> Result<(), NoMemory>
        ensures ended { OnOk result ((items : List Item) → Have self.old items → AllEnded self.new items) }
    {
        let Some(name) = self.current.take() else {
            return Ok(());
        };
        let lines = self.judge.take_conflicts()?;
        self.ended.push(Judged { name, lines })?;
        Ok(())
    }

    /// Makes room for items that are added next.
    pub fn make_room(&mut self, items: &[Item])
        ensures { (its : List Item) → Have self.old its → Have self.new its }
    {
        self.judge.make_room(items);
    }

    /// Adds an item of the trace.
    pub fn add(&mut self, item: &Item) -> Result<(), NoMemory>
        requires { IsItem item.now }
        ensures { OnOk result ((items rest : List Item) (sections : List Section) → Have self.old items
            → items_of sections ≡ items ++ item.now ∷ rest → Have self.new (items ++ item.now ∷ [])) }
    {
        match item {
            Item::Test(name) => {
                self.end()?;
                self.current = Some(Name::from_str(self.alloc, name.as_str())?);
                Ok(())
            }
            Item::Entry(e) => self.judge.add(e),
        }
    }

    /// The sections, of which the last ends here.
    pub fn finish(mut self) -> Result<Vec<Judged>, NoMemory>
        ensures { IfOk result (λ judged. (items : List Item) → Have self items
            → (sections : List Section) × (items ≡ items_of sections) × AreJudged sections judged.items) }
    {
        self.end()?;
        let Sections { ended, .. } = self;
        Ok(ended)
    }
}
