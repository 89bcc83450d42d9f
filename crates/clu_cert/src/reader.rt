//! The reader of a certificate, a line at a time: a machine whose stage says which line comes next, and
//! whose contracts say which texts may follow.

ghost use Rattle.std.specs.Prelude.{◌≡◌, ◌↔◌, suc, OnOk, IsErrOf, IsTrue};
ghost use Rattle.clu_cert.specs.Cut.{spaced_fields};
ghost use Rattle.clu_cert.specs.Reading.{TakesLine, RefusesLine, MeansTheSame};
ghost use Rattle.clu_cert.specs.declared.reader.Stage.TheVariants as at;

use crate::certificate::{Certificate, Item, Proof};
use crate::fault::Fault;
use crate::lines::{is_end, is_version, read_count, read_objective, read_step, read_value};
use crate::lists::{ItemLine, read_item, read_labels, read_part, read_row};
use clu_objective::Objective;
use clu_partition::Seq;
use clu_rows::{Leaf, Rows};
use std::alloc::{AllocError, Global};
use std::mem;

/// Which line comes next.
#[derive(Clone, Copy)]
pub enum Stage {
    /// The first line.
    Version,
    /// The line `objective`.
    Objective,
    /// The line `vertices`.
    Vertices,
    /// The line `value`; there are so many vertices.
    Value(u64),
    /// The line `bound`, with the vertices.
    Bound(u64),
    /// The line `blocks`, with the vertices.
    Blocks(u64),
    /// The line `steps`.
    Steps,
    /// A root step while so many are left, else the line `parts`.
    Step(u64),
    /// The line `part` while so many are left, else the line `end`.
    Part(u64),
    /// The line `items`; so many parts follow this one.
    Items(u64),
    /// An item while so many are left (the second number), with the parts that follow.
    Item(u64, u64),
    /// A row while so many are left (the third number), with the parts and items that follow.
    Row(u64, u64, u64),
    /// No line.
    Done,
}

/// What is read of a certificate, and what may stand on the next line.
#[derive(Drop)]
pub struct Reader {
    /// Which line comes next.
    pub stage: Stage,
    /// What is read, but for the part that is being read.
    pub cert: Certificate,
    /// That part, but for the leaf that is being read.
    pub part: Proof,
    /// That leaf.
    pub leaf: Leaf,
}

impl Reader {
    /// Nothing read.
    pub fn new(alloc: Global) -> Self
        ensures { result.stage ≡ at.Version }
    {
        Reader {
            stage: Stage::Version,
            cert: Certificate {
                objective: Objective::Edits,
                labels: Seq::new(alloc),
                value: 0,
                bound: 0,
                root_steps: Seq::new(alloc),
                proofs: Seq::new(alloc),
            },
            part: Proof {
                part: Seq::new(alloc),
                items: Seq::new(alloc),
            },
            leaf: Leaf {
                den: 0,
                rows: Rows::new(alloc),
            },
        }
    }

    /// Whether the line `end` is read.
    pub fn is_done(&self) -> bool
        ensures { IsTrue result ↔ (self.now.stage ≡ at.Done) }
    {
        matches!(self.stage, Stage::Done)
    }

    fn take_version(&mut self, line: &[u8]) -> Result<(), Fault>
        requires { self.old.stage ≡ at.Version }
        ensures ok { OnOk result (TakesLine self.old (spaced_fields line.now) self.new) }
        ensures bad { IsErrOf result Fault.Bad → RefusesLine self.old (spaced_fields line.now) }
    {
        if !is_version(line) {
            return Err(Fault::Bad);
        }
        self.stage = Stage::Objective;
        Ok(())
    }

    fn take_objective(&mut self, line: &[u8]) -> Result<(), Fault>
        requires { self.old.stage ≡ at.Objective }
        ensures ok { OnOk result (TakesLine self.old (spaced_fields line.now) self.new) }
        ensures bad { IsErrOf result Fault.Bad → RefusesLine self.old (spaced_fields line.now) }
    {
        let Some(objective) = read_objective(line) else {
            return Err(Fault::Bad);
        };
        self.cert.objective = objective;
        self.stage = Stage::Vertices;
        Ok(())
    }

    fn take_vertices(&mut self, line: &[u8]) -> Result<(), Fault>
        requires { self.old.stage ≡ at.Vertices }
        ensures ok { OnOk result (TakesLine self.old (spaced_fields line.now) self.new) }
        ensures bad { IsErrOf result Fault.Bad → RefusesLine self.old (spaced_fields line.now) }
    {
        let Some(n) = read_count(line, b"vertices", 1000) else {
            return Err(Fault::Bad);
        };
        self.stage = Stage::Value(n);
        Ok(())
    }

    fn take_value(&mut self, n: u64, line: &[u8]) -> Result<(), Fault>
        requires { self.old.stage ≡ at.Value n }
        ensures ok { OnOk result (TakesLine self.old (spaced_fields line.now) self.new) }
        ensures bad { IsErrOf result Fault.Bad → RefusesLine self.old (spaced_fields line.now) }
    {
        let Some(value) = read_value(line, b"value") else {
            return Err(Fault::Bad);
        };
        self.cert.value = value;
        self.stage = Stage::Bound(n);
        Ok(())
    }

    fn take_bound(&mut self, n: u64, line: &[u8]) -> Result<(), Fault>
        requires { self.old.stage ≡ at.Bound n }
        ensures ok { OnOk result (TakesLine self.old (spaced_fields line.now) self.new) }
        ensures bad { IsErrOf result Fault.Bad → RefusesLine self.old (spaced_fields line.now) }
    {
        let Some(bound) = read_value(line, b"bound") else {
            return Err(Fault::Bad);
        };
        self.cert.bound = bound;
        self.stage = Stage::Blocks(n);
        Ok(())
    }

    fn take_blocks(&mut self, alloc: Global, n: u64, line: &[u8]) -> Result<(), Fault>
        requires { self.old.stage ≡ at.Blocks n }
        ensures ok { OnOk result (TakesLine self.old (spaced_fields line.now) self.new) }
        ensures bad { IsErrOf result Fault.Bad → RefusesLine self.old (spaced_fields line.now) }
    {
        let labels = read_labels(alloc, line)?;
        if labels.len() as u64 != n {
            return Err(Fault::Bad);
        }
        self.cert.labels = labels;
        self.stage = Stage::Steps;
        Ok(())
    }

    fn take_steps(&mut self, alloc: Global, line: &[u8]) -> Result<(), Fault>
        requires { self.old.stage ≡ at.Steps }
        ensures ok { OnOk result (TakesLine self.old (spaced_fields line.now) self.new) }
        ensures bad { IsErrOf result Fault.Bad → RefusesLine self.old (spaced_fields line.now) }
    {
        let Some(left) = read_count(line, b"steps", u64::MAX) else {
            return Err(Fault::Bad);
        };
        self.cert.root_steps = Seq::new(alloc);
        self.stage = Stage::Step(left);
        Ok(())
    }

    fn take_step(&mut self, left: u64, line: &[u8]) -> Result<(), Fault>
        requires { self.old.stage ≡ at.Step (suc left) }
        ensures ok { OnOk result (TakesLine self.old (spaced_fields line.now) self.new) }
        ensures bad { IsErrOf result Fault.Bad → RefusesLine self.old (spaced_fields line.now) }
    {
        let Some(step) = read_step(line) else {
            return Err(Fault::Bad);
        };
        self.cert.root_steps.push(step)?;
        self.stage = Stage::Step(left);
        Ok(())
    }

    fn take_parts(&mut self, alloc: Global, line: &[u8]) -> Result<(), Fault>
        requires { self.old.stage ≡ at.Step 0 }
        ensures ok { OnOk result (TakesLine self.old (spaced_fields line.now) self.new) }
        ensures bad { IsErrOf result Fault.Bad → RefusesLine self.old (spaced_fields line.now) }
    {
        let Some(left) = read_count(line, b"parts", u64::MAX) else {
            return Err(Fault::Bad);
        };
        self.cert.proofs = Seq::new(alloc);
        self.stage = Stage::Part(left);
        Ok(())
    }

    fn take_at_step(&mut self, alloc: Global, left: u64, line: &[u8]) -> Result<(), Fault>
        requires { self.old.stage ≡ at.Step left }
        ensures ok { OnOk result (TakesLine self.old (spaced_fields line.now) self.new) }
        ensures bad { IsErrOf result Fault.Bad → RefusesLine self.old (spaced_fields line.now) }
    {
        if left == 0 {
            self.take_parts(alloc, line)
        } else {
            self.take_step(left - 1, line)
        }
    }

    fn take_part(&mut self, alloc: Global, left: u64, line: &[u8]) -> Result<(), Fault>
        requires { self.old.stage ≡ at.Part (suc left) }
        ensures ok { OnOk result (TakesLine self.old (spaced_fields line.now) self.new) }
        ensures bad { IsErrOf result Fault.Bad → RefusesLine self.old (spaced_fields line.now) }
    {
        let part = match read_part(alloc, line) {
            Ok(part) => part,
            Err(fault) => return Err(fault),
        };
        self.part = Proof {
            part,
            items: Seq::new(alloc),
        };
        self.stage = Stage::Items(left);
        Ok(())
    }

    fn take_end(&mut self, line: &[u8]) -> Result<(), Fault>
        requires { self.old.stage ≡ at.Part 0 }
        ensures ok { OnOk result (TakesLine self.old (spaced_fields line.now) self.new) }
        ensures bad { IsErrOf result Fault.Bad → RefusesLine self.old (spaced_fields line.now) }
    {
        if !is_end(line) {
            return Err(Fault::Bad);
        }
        self.stage = Stage::Done;
        Ok(())
    }

    fn take_at_part(&mut self, alloc: Global, left: u64, line: &[u8]) -> Result<(), Fault>
        requires { self.old.stage ≡ at.Part left }
        ensures ok { OnOk result (TakesLine self.old (spaced_fields line.now) self.new) }
        ensures bad { IsErrOf result Fault.Bad → RefusesLine self.old (spaced_fields line.now) }
    {
        if left == 0 {
            self.take_end(line)
        } else {
            self.take_part(alloc, left - 1, line)
        }
    }

    fn take_items(&mut self, alloc: Global, parts: u64, line: &[u8]) -> Result<(), Fault>
        requires { self.old.stage ≡ at.Items parts }
        ensures ok { OnOk result (TakesLine self.old (spaced_fields line.now) self.new) }
        ensures bad { IsErrOf result Fault.Bad → RefusesLine self.old (spaced_fields line.now) }
    {
        let Some(left) = read_count(line, b"items", u64::MAX) else {
            return Err(Fault::Bad);
        };
        self.part.items = Seq::new(alloc);
        self.stage = Stage::Item(parts, left);
        Ok(())
    }

    fn take_item(&mut self, alloc: Global, parts: u64, left: u64, line: &[u8]) -> Result<(), Fault>
        requires { self.old.stage ≡ at.Item parts (suc left) }
        ensures ok { OnOk result (TakesLine self.old (spaced_fields line.now) self.new) }
        ensures bad { IsErrOf result Fault.Bad → RefusesLine self.old (spaced_fields line.now) }
    {
        let Some(item) = read_item(line) else {
            return Err(Fault::Bad);
        };
        match item {
            ItemLine::Branch(u, v) => {
                self.part.items.push(Item::Branch(u, v))?;
                self.stage = Stage::Item(parts, left);
                Ok(())
            }
            ItemLine::Reduce(step) => {
                self.part.items.push(Item::Reduce(step))?;
                self.stage = Stage::Item(parts, left);
                Ok(())
            }
            ItemLine::Leaf(den, rows) => {
                self.leaf = Leaf {
                    den,
                    rows: Rows::new(alloc),
                };
                self.stage = Stage::Row(parts, left, rows);
                Ok(())
            }
        }
    }

    /// Ends a part whose items are all read.
    fn close_part(&mut self, alloc: Global, parts: u64) -> Result<(), AllocError>
        requires { self.old.stage ≡ at.Item parts 0 }
        ensures stage { OnOk result (self.new.stage ≡ at.Part parts) }
        ensures same { OnOk result (MeansTheSame self.old self.new) }
    {
        let blank = Proof {
            part: Seq::new(alloc),
            items: Seq::new(alloc),
        };
        let part = mem::replace(&mut self.part, blank);
        self.cert.proofs.push(part)?;
        self.stage = Stage::Part(parts);
        Ok(())
    }

    fn take_at_item(
        &mut self,
        alloc: Global,
        parts: u64,
        left: u64,
        line: &[u8],
    ) -> Result<(), Fault>
        requires { self.old.stage ≡ at.Item parts left }
        ensures ok { OnOk result (TakesLine self.old (spaced_fields line.now) self.new) }
        ensures bad { IsErrOf result Fault.Bad → RefusesLine self.old (spaced_fields line.now) }
    {
        if left == 0 {
            self.close_part(alloc, parts)?;
            self.take_at_part(alloc, parts, line)
        } else {
            self.take_item(alloc, parts, left - 1, line)
        }
    }

    fn take_row(
        &mut self,
        alloc: Global,
        parts: u64,
        later: u64,
        left: u64,
        line: &[u8],
    ) -> Result<(), Fault>
        requires { self.old.stage ≡ at.Row parts later (suc left) }
        ensures ok { OnOk result (TakesLine self.old (spaced_fields line.now) self.new) }
        ensures bad { IsErrOf result Fault.Bad → RefusesLine self.old (spaced_fields line.now) }
    {
        let row = match read_row(alloc, line) {
            Ok(row) => row,
            Err(fault) => return Err(fault),
        };
        row.push_to(&mut self.leaf.rows)?;
        self.stage = Stage::Row(parts, later, left);
        Ok(())
    }

    /// Ends a leaf whose rows are all read.
    fn close_leaf(&mut self, alloc: Global, parts: u64, later: u64) -> Result<(), AllocError>
        requires { self.old.stage ≡ at.Row parts later 0 }
        ensures stage { OnOk result (self.new.stage ≡ at.Item parts later) }
        ensures same { OnOk result (MeansTheSame self.old self.new) }
    {
        let blank = Leaf {
            den: 0,
            rows: Rows::new(alloc),
        };
        let leaf = mem::replace(&mut self.leaf, blank);
        self.part.items.push(Item::Leaf(leaf))?;
        self.stage = Stage::Item(parts, later);
        Ok(())
    }

    fn take_at_row(
        &mut self,
        alloc: Global,
        parts: u64,
        later: u64,
        left: u64,
        line: &[u8],
    ) -> Result<(), Fault>
        requires { self.old.stage ≡ at.Row parts later left }
        ensures ok { OnOk result (TakesLine self.old (spaced_fields line.now) self.new) }
        ensures bad { IsErrOf result Fault.Bad → RefusesLine self.old (spaced_fields line.now) }
    {
        if left == 0 {
            self.close_leaf(alloc, parts, later)?;
            self.take_at_item(alloc, parts, later, line)
        } else {
            self.take_row(alloc, parts, later, left - 1, line)
        }
    }

    /// Takes the next line.
    pub fn take(&mut self, alloc: Global, line: &[u8]) -> Result<(), Fault>
        ensures ok { OnOk result (TakesLine self.old (spaced_fields line.now) self.new) }
        ensures bad { IsErrOf result Fault.Bad → RefusesLine self.old (spaced_fields line.now) }
    {
        match self.stage {
            Stage::Version => self.take_version(line),
            Stage::Objective => self.take_objective(line),
            Stage::Vertices => self.take_vertices(line),
            Stage::Value(n) => self.take_value(n, line),
            Stage::Bound(n) => self.take_bound(n, line),
            Stage::Blocks(n) => self.take_blocks(alloc, n, line),
            Stage::Steps => self.take_steps(alloc, line),
            Stage::Step(left) => self.take_at_step(alloc, left, line),
            Stage::Part(left) => self.take_at_part(alloc, left, line),
            Stage::Items(parts) => self.take_items(alloc, parts, line),
            Stage::Item(parts, left) => self.take_at_item(alloc, parts, left, line),
            Stage::Row(parts, later, left) => self.take_at_row(alloc, parts, later, left, line),
            Stage::Done => Err(Fault::Bad),
        }
    }
}
