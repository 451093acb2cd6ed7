ghost use Rattle.std.specs.Prelude.{◌≡◌, ◌==◌, length};
ghost use Rattle.std.specs.List.{list_all};

use crate::looked::Looked;
use crate::refill::refilled;
use crate::target::bits_give;
use bit_classes::Join;
use bit_rows::BitRow;
use fill_core::{Choice, FillEnd, GroupSeen, Offer, PairSeen, Receiver};
use map_walk::{Reading, Standing, is_open, readings, standing_group_opens, standing_pair_opens};
use predicate_core::Pred;
use query_core::{Node, Query};
use rank_core::{Ranked, key};
use std::alloc::Global;
use table_core::{Task, Tuple};
use value_core::{ColType, OutOfMemory, concatenated, copied};

/// The skeleton of a number as a root: what finds the answers among its fillings, at most so many, where there is a bound.
#[derive(Drop)]
pub struct Root<'a> {
    pub task: &'a Task,
    pub number: u32,
    pub skeleton: &'a Node,
    pub bound: Option<u64>,
}

// Whether rows have so many columns.
fn are_wide(width: usize, rows: &[Tuple]) -> bool
    ensures { result ≡ list_all (λ row. length row == width) rows.now }
{
    rows.iter().all(|row| row.cells().len() == width)
}

// A choice of an offer, with one reading and with several.
#[derive(Drop)]
struct Read<'a> {
    offer: &'a Offer<'a>,
    choice: &'a Choice,
    reading: &'a Reading,
}

#[derive(Drop)]
struct Reads<'a> {
    offer: &'a Offer<'a>,
    choice: &'a Choice,
    readings: &'a [Reading],
}

impl Root<'_> {
    ghost use Rattle.std.specs.Prelude.{◌≡◌, ◌+◌, ◌++◌, ◌∷◌, [], ℕ, Bool, None, All, Err, IfOk, OnOk, length};
    ghost use Rattle.fill_core.specs.Bounds.{IsWithin, Passes};
    ghost use Rattle.fill_core.specs.declared.end.FillEnd.TheVariants as ends;
    ghost use Rattle.root_search.specs.Answers.{query_of, TooMany};
    ghost use Rattle.query_core.specs.Answers.{ranked};
    ghost use Rattle.query_core.specs.Membership.{query_fault};
    ghost use Rattle.query_core.specs.View.{tree, select};
    ghost use Rattle.rank_core.specs.View.{ranked_query, ranked_queries};
    ghost use Rattle.root_search.specs.Reads.{preds_of, read_answer, read_answers, choice_answers};

    // The query of these predicates, this map and flag.
    fn query(
        &self,
        alloc: Global,
        preds: &[Pred],
        picks: &[usize],
        distinct: bool,
    ) -> Result<Query, OutOfMemory>
        ensures { IfOk result (λ q. select q ≡ query_of (tree self.now.skeleton.now) preds.now picks.now distinct) }
    {
        Ok(Query {
            body: refilled(alloc, self.skeleton, &mut preds.iter())?,
            map: copied(alloc, picks)?,
            distinct,
        })
    }

    // That query with its key.
    fn ranked(
        &self,
        alloc: Global,
        preds: &[Pred],
        picks: &[usize],
        distinct: bool,
    ) -> Result<Ranked, OutOfMemory>
        requires { query_fault self.now.task.now (query_of (tree self.now.skeleton.now) preds.now picks.now distinct) ≡ None }
        ensures { IfOk result (λ r. ranked_query r ≡ ranked self.now.task.now (record { skeleton = self.now.number; query = query_of (tree self.now.skeleton.now) preds.now picks.now distinct })) }
    {
        let query = self.query(alloc, preds, picks, distinct)?;
        let key = key(self.task, self.number, &query);
        Ok(Ranked { key, query })
    }

    // Appends an answer, where the bound has room for it.
    fn push(&self, answer: Ranked, out: &mut Vec<Ranked>) -> Result<(), FillEnd>
        requires room { IsWithin self.now.bound (length out.old.items) }
        ensures found { OnOk result (out.new.items ≡ out.old.items ++ answer ∷ []) }
        ensures room { OnOk result (IsWithin self.now.bound (length out.new.items)) }
        ensures heavy { result ≡ Err ends.Heavy → Passes self.now.bound (length out.old.items + 1) }
    {
        if let Some(bound) = self.bound {
            if bound <= out.len() as u64 {
                return Err(FillEnd::Heavy);
            }
        }
        out.push(answer)?;
        Ok(())
    }

    // Appends the query of a choice by a reading, where the choice's bits give the output.
    fn push_answer(
        &self,
        alloc: Global,
        read: &Read<'_>,
        distinct: bool,
        out: &mut Vec<Ranked>,
    ) -> Result<(), FillEnd>
        requires wide { All (λ t. length read.now.choice.now.bits ≡ length t.mask) read.now.reading.now.targets }
        requires fits { query_fault self.now.task.now (query_of (tree self.now.skeleton.now) (preds_of read.now.offer.now.preds.now read.now.choice.now) read.now.reading.now.picks distinct) ≡ None }
        requires room { IsWithin self.now.bound (length out.old.items) }
        ensures found { OnOk result (ranked_queries out.new ≡ ranked_queries out.old ++ read_answer self.now.task.now self.now.number (tree self.now.skeleton.now) read.now.offer.now.preds.now read.now.choice.now read.now.reading.now distinct) }
        ensures room { OnOk result (IsWithin self.now.bound (length out.new.items)) }
        ensures heavy { result ≡ Err ends.Heavy → TooMany self.now.bound (ranked_queries out.old) (read_answer self.now.task.now self.now.number (tree self.now.skeleton.now) read.now.offer.now.preds.now read.now.choice.now read.now.reading.now distinct) }
    {
        let wanted = self.task.output().tuples().len();
        let targets = read.reading.targets.as_slice();
        if !bits_give(distinct, wanted, &read.choice.bits, targets) {
            return Ok(());
        }
        let preds = read.offer.preds_with(alloc, &read.choice.pred)?;
        let picks = read.reading.picks.as_slice();
        let answer = self.ranked(alloc, preds.as_slice(), picks, distinct)?;
        self.push(answer, out)?;
        Ok(())
    }

    // Appends the queries of a choice by a reading, with and without removal of duplicates.
    fn push_both(
        &self,
        alloc: Global,
        read: &Read<'_>,
        out: &mut Vec<Ranked>,
    ) -> Result<(), FillEnd>
        requires wide { All (λ t. length read.now.choice.now.bits ≡ length t.mask) read.now.reading.now.targets }
        requires fits { (distinct : Bool) → query_fault self.now.task.now (query_of (tree self.now.skeleton.now) (preds_of read.now.offer.now.preds.now read.now.choice.now) read.now.reading.now.picks distinct) ≡ None }
        requires room { IsWithin self.now.bound (length out.old.items) }
        ensures found { OnOk result (ranked_queries out.new ≡ ranked_queries out.old ++ read_answers self.now.task.now self.now.number (tree self.now.skeleton.now) read.now.offer.now.preds.now read.now.choice.now read.now.reading.now) }
        ensures room { OnOk result (IsWithin self.now.bound (length out.new.items)) }
        ensures heavy { result ≡ Err ends.Heavy → TooMany self.now.bound (ranked_queries out.old) (read_answers self.now.task.now self.now.number (tree self.now.skeleton.now) read.now.offer.now.preds.now read.now.choice.now read.now.reading.now) }
    {
        self.push_answer(alloc, read, false, out)?;
        self.push_answer(alloc, read, true, out)
    }

    // Appends the queries of a choice by each of some readings.
    fn push_choice(
        &self,
        alloc: Global,
        reads: &Reads<'_>,
        out: &mut Vec<Ranked>,
    ) -> Result<(), FillEnd>
        requires wide { All (λ r. All (λ t. length reads.now.choice.now.bits ≡ length t.mask) r.targets) reads.now.readings.now }
        requires fits { All (λ r. (distinct : Bool) → query_fault self.now.task.now (query_of (tree self.now.skeleton.now) (preds_of reads.now.offer.now.preds.now reads.now.choice.now) r.picks distinct) ≡ None) reads.now.readings.now }
        requires room { IsWithin self.now.bound (length out.old.items) }
        ensures found { OnOk result (ranked_queries out.new ≡ ranked_queries out.old ++ choice_answers self.now.task.now self.now.number (tree self.now.skeleton.now) reads.now.offer.now.preds.now reads.now.readings.now reads.now.choice.now) }
        ensures room { OnOk result (IsWithin self.now.bound (length out.new.items)) }
        ensures heavy { result ≡ Err ends.Heavy → TooMany self.now.bound (ranked_queries out.old) (choice_answers self.now.task.now self.now.number (tree self.now.skeleton.now) reads.now.offer.now.preds.now reads.now.readings.now reads.now.choice.now) }
    {
        for reading in reads.readings {
            let (offer, choice) = (reads.offer, reads.choice);
            let read = Read {
                offer,
                choice,
                reading,
            };
            self.push_both(alloc, &read, out)?;
        }
        Ok(())
    }
}

impl Receiver for Root<'_> {
    ghost use Rattle.query_core.specs.Answers.{RankedQuery};
    ghost use Rattle.query_core.specs.View.{tree};
    ghost use Rattle.rank_core.specs.View.{ranked_queries};
    ghost use Rattle.root_search.specs.Answers.{answers_on, FillingFits};
    ghost use Rattle.root_search.specs.Readings.{readings};
    ghost use Rattle.root_search.specs.Wanted.{may_want};
    ghost use Rattle.fill_core.specs.Bounds.{IsWithin};
    ghost use Rattle.std.specs.Prelude.{◌≡◌, length};

    type Store = Vec<Ranked>;

    type Findings = Looked;

    ghost Item = { RankedQuery };

    ghost held = { λ f store. ranked_queries store };

    ghost weighs = { λ f r. 1 };

    ghost bound = { λ f. f.bound };

    ghost keeps = { λ f store. IsWithin f.bound (length store.items) };

    ghost gives = { λ f filled. answers_on f.task.now f.number (tree f.skeleton.now) filled };

    ghost typed = { λ f types. Unit };

    ghost accepts = { λ f filled. FillingFits f.task.now (tree f.skeleton.now) filled };

    ghost found = { λ f types candidates looked. looked.readings ≡ readings types candidates f.task.now.output };

    ghost about = { λ f looked n. looked.width ≡ n };

    ghost may = { λ f looked join bits. may_want looked join bits };

    fn is_shut_pair(&self, seen: &PairSeen<'_>) -> bool {
        let width = seen.left.len();
        if !are_wide(width, seen.lefts) {
            return false;
        }
        let left = Standing {
            width,
            rows: seen.lefts,
        };
        let right = Standing {
            width: seen.right.len(),
            rows: seen.rights,
        };
        !standing_pair_opens(seen.kind, &left, &right, seen.types, self.task.output())
    }

    fn is_shut_group(&self, seen: &GroupSeen<'_>) -> bool {
        let part = Standing {
            width: seen.child.len(),
            rows: seen.rows,
        };
        !standing_group_opens(seen.keys, &part, seen.types, self.task.output())
    }

    fn look(
        &self,
        alloc: Global,
        types: &[ColType],
        candidates: &[Tuple],
    ) -> Result<Option<Looked>, OutOfMemory> {
        if !is_open(types, candidates, self.task.output()) {
            return Ok(None);
        }
        let list = readings(alloc, types, candidates, self.task.output())?;
        if list.is_empty() {
            return Ok(None);
        }
        Ok(Some(Looked::new(list, candidates.len())))
    }

    fn of_pairs(
        &self,
        alloc: Global,
        findings: &Looked,
        lefts: usize,
        rights: usize,
    ) -> Result<Looked, OutOfMemory> {
        findings.of_pairs(alloc, lefts, rights)
    }

    fn may(&self, findings: &Looked, join: Join, row: &BitRow) -> bool {
        findings.may_want(join, row)
    }

    fn take(
        &self,
        alloc: Global,
        offer: &Offer<'_>,
        findings: &Looked,
        store: &mut Vec<Ranked>,
    ) -> Result<(), FillEnd> {
        let readings = findings.readings();
        for choice in offer.choices {
            let reads = Reads {
                offer: &*offer,
                choice,
                readings,
            };
            self.push_choice(alloc, &reads, store)?;
        }
        Ok(())
    }
}
