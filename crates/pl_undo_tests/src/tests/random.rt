//! The store beside plain copies.

use super::{Step, play, rows_of};
use pl_base::Name;
use pl_undo::Store;
use std::alloc::{AllocError, Global};
use std::test::Fail;

const STEPS: u64 = 10_000;

// A table and a routine of its name: whether they are there, since which turn and by which text the
// routine, the table's next id and its rows by id.
#[derive(Drop)]
struct Plain {
    is_there: bool,
    since: u64,
    text: u8,
    next: u64,
    rows: Vec<(u64, i32)>,
}

impl Plain {
    fn new(alloc: Global, is_there: bool, since: u64) -> Plain {
        Plain {
            is_there,
            since,
            text: b'a',
            next: 1,
            rows: Vec::new(alloc),
        }
    }

    fn copy(&self, alloc: Global) -> Result<Plain, AllocError> {
        let rows = Vec::from_slice(alloc, self.rows.as_slice())?;
        Ok(Plain {
            is_there: self.is_there,
            since: self.since,
            text: self.text,
            next: self.next,
            rows,
        })
    }

    fn is_taken(&self, number: i32) -> bool {
        self.rows.iter().any(|row| row.1 == number)
    }

    fn insert(&mut self, number: i32) -> Result<(), AllocError> {
        if !self.is_taken(number) {
            self.rows.push((self.next, number))?;
            self.next = self.next.saturating_add(1);
        }
        Ok(())
    }

    fn replace(&mut self, id: u64, number: i32) {
        if self.is_taken(number) {
            return;
        }
        for row in self.rows.iter_mut() {
            if row.0 == id {
                row.1 = number;
            }
        }
    }

    // The id of one of the rows.
    fn pick(&self, random: u64) -> Option<u64> {
        let count = self.rows.len() as u64;
        if count == 0 {
            return None;
        }
        let at = usize::try_from(random % count).unwrap_or(0);
        self.rows.get(at).map(|row| row.0)
    }
}

// The table now, as it was at the last commit and as it was at the marks, each a copy.
#[derive(Drop)]
struct Copies {
    now: Plain,
    last: Plain,
    marks: Vec<Plain>,
}

impl Copies {
    fn new(alloc: Global) -> Copies {
        Copies {
            now: Plain::new(alloc, false, 0),
            last: Plain::new(alloc, false, 0),
            marks: Vec::new(alloc),
        }
    }

    // A change of the table in this turn.
    fn change(&mut self, alloc: Global, step: Step, turn: u64) -> Result<(), AllocError> {
        match step {
            Step::Create => self.now = Plain::new(alloc, true, turn),
            Step::Exchange(text) => self.now.text = text,
            Step::Drop => self.now = Plain::new(alloc, false, turn),
            Step::Insert(number) => self.now.insert(number)?,
            Step::Replace(id, number) => self.now.replace(id, number),
            Step::Remove(id) => self.now.rows.retain(|row| row.0 != id),
            _ => {}
        }
        Ok(())
    }

    // What is done to all tables.
    fn go(&mut self, alloc: Global, step: Step) -> Result<(), AllocError> {
        match step {
            Step::Mark => self.marks.push(self.now.copy(alloc)?)?,
            Step::RollBack(at) => {
                if at < self.marks.len() {
                    self.now = self.marks[at].copy(alloc)?;
                    self.marks.truncate(at + 1);
                }
            }
            Step::Release(at) => self.marks.truncate(at),
            Step::Seal => {
                self.last = self.now.copy(alloc)?;
                self.marks.clear();
            }
            Step::Reset => {
                self.now = self.last.copy(alloc)?;
                self.marks.clear();
            }
            _ => {}
        }
        Ok(())
    }
}

fn next_random(random: u64) -> u64 {
    random
        .wrapping_mul(6_364_136_223_846_793_005)
        .wrapping_add(1_442_695_040_888_963_407)
}

// A step that can be done to this table.
fn change_of(table: &Plain, random: u64) -> Step {
    let number = i32::try_from(random % 100).unwrap_or(0);
    if !table.is_there {
        return Step::Create;
    }
    match (random / 1000 % 20, table.pick(random / 100_000)) {
        (0, _) => Step::Drop,
        (1..=4, Some(id)) => Step::Replace(id, number),
        (5..=8, Some(id)) => Step::Remove(id),
        (9..=10, _) => Step::Exchange(u8::try_from(random % 100).unwrap_or(0)),
        _ => Step::Insert(number),
    }
}

// A step that is done to all tables, where so many marks are live.
fn step_of(depth: usize, random: u64) -> Step {
    if depth == 0 {
        return Step::Mark;
    }
    let at = usize::try_from(random / 1000).unwrap_or(0) % depth;
    match random % 40 {
        0 => Step::Seal,
        1 => Step::Reset,
        2..=9 => Step::Release(at),
        10..=21 => Step::RollBack(at),
        _ => Step::Mark,
    }
}

fn is_same(alloc: Global, store: &Store, name: Name, table: &Plain) -> Result<bool, Fail> {
    match rows_of(alloc, store, name)? {
        Some(rows) => Ok(
            table.is_there
                && is_made_by(store, name, table.text)
                && rows.as_slice() == table.rows.as_slice(),
        ),
        None => Ok(!table.is_there && store.catalog().routine(name).is_none()),
    }
}

fn is_made_by(store: &Store, name: Name, text: u8) -> bool {
    match store.catalog().routine(name) {
        Some(routine) => routine.text.as_bytes() == [text].as_slice(),
        None => false,
    }
}

// Whether the object of this name is the first one.
fn comes_first(store: &Store, name: Name) -> bool {
    let mut objects = store.catalog().objects();
    match objects.lend() {
        Some(object) => object.name() == name,
        None => false,
    }
}

// Whether the two tables, if they are there, stand in the order in which they were created.
fn is_in_order(store: &Store, name: Name, table: &Plain, other: &Plain) -> bool {
    let are_there = table.is_there && other.is_there;
    !are_there || comes_first(store, name) == (table.since < other.since)
}

// One step, of the store and of the copies.
fn go_on(
    alloc: Global,
    store: &mut Store,
    name: Name,
    table: &mut Copies,
    other: &mut Copies,
    turn: u64,
    random: u64,
) -> Result<(), Fail> {
    if random / 8 % 4 == 0 {
        let step = step_of(store.depth(), random / 64);
        play(alloc, store, name, step)?;
        table.go(alloc, step)?;
        other.go(alloc, step)?;
    } else {
        let step = change_of(&table.now, random / 64);
        play(alloc, store, name, step)?;
        table.change(alloc, step, turn)?;
    }
    Ok(())
}

#[test]
fn a_store_is_as_plain_copies_are(rt: HostRuntime) -> Result<(), Fail> {
    let alloc = rt.alloc();
    let (Some(a), Some(b)) = (Name::of("a"), Name::of("b")) else {
        return Err(Fail::new("no name"));
    };
    let mut store = Store::new(alloc);
    let mut first = Copies::new(alloc);
    let mut second = Copies::new(alloc);
    let mut random = 1;
    for turn in 0..STEPS {
        random = next_random(random);
        let high = random / 65_536;
        if high % 2 == 0 {
            go_on(
                alloc,
                &mut store,
                a,
                &mut first,
                &mut second,
                turn,
                high / 2,
            )?;
        } else {
            go_on(
                alloc,
                &mut store,
                b,
                &mut second,
                &mut first,
                turn,
                high / 2,
            )?;
        }
        assert!(rt; is_same(alloc, &store, a, &first.now)?, "a after {turn}");
        assert!(rt; is_same(alloc, &store, b, &second.now)?, "b after {turn}");
        assert!(rt;
            is_in_order(&store, a, &first.now, &second.now),
            "order after {turn}"
        );
        assert_eq!(rt; store.depth(), first.marks.len());
    }
    Ok(())
}
