//! An order that grows: numbers in a topological order that is kept under new edges, as Pearce and Kelly do it.

use std::alloc::{AllocError, Global};

/// For each number how many steps searches take together before the order grows no more.
const STEPS_FOR_EACH: u64 = 256;

/// An edge from a number, or to one.
#[derive(Clone, Copy)]
struct Edge {
    /// The other end.
    other: u32,
    /// One more than the number of the next edge at the same number, or 0.
    next: u32,
}

/// The edges from numbers, or to numbers.
#[derive(Drop)]
struct Edges {
    /// For each number one more than the number of its first edge, or 0.
    first: Vec<u32>,
    edges: Vec<Edge>,
}

impl Edges {
    /// No edges.
    ///
    /// Fails for want of memory alone.
    fn none(alloc: Global, numbers: usize) -> Result<Edges, AllocError> {
        let first: Vec<u32> = vec![in alloc; 0; numbers]?;
        Ok(Edges {
            first,
            edges: Vec::new(alloc),
        })
    }

    /// The link to the first edge at a number, or 0.
    fn first(&self, number: u32) -> u32 {
        self.first.get(number as usize).copied().unwrap_or(0)
    }

    /// The edge that a link leads to.
    fn edge(&self, link: u32) -> Option<Edge> {
        let place = link.checked_sub(1)?;
        self.edges.get(place as usize).copied()
    }

    /// Puts an edge before the others at a number.
    ///
    /// Fails for want of memory alone.
    fn push(&mut self, number: u32, other: u32) -> Result<(), AllocError> {
        let next = self.first(number);
        self.edges.push(Edge { other, next })?;
        let link = u32::try_from(self.edges.len()).unwrap_or(0);
        if let Some(first) = self.first.get_mut(number as usize) {
            *first = link;
        }
        Ok(())
    }
}

/// An order of numbers, with the edges that it keeps.
#[derive(Drop)]
pub(crate) struct GrowingOrder {
    alloc: Global,
    out: Edges,
    into: Edges,
    /// For each number its rank, or the greatest number where it has none.
    ranks: Vec<u32>,
    /// How many ranks were given.
    given: u32,
    /// For each number the search that came to it last.
    marks: Vec<u32>,
    /// The number of the last search.
    mark: u32,
    /// How many steps searches may still take.
    steps: u64,
}

impl GrowingOrder {
    /// The order of no numbers, with room for some.
    ///
    /// Fails for want of memory alone. O(n) for n numbers.
    pub(crate) fn of(alloc: Global, numbers: usize) -> Result<GrowingOrder, AllocError> {
        let ranks: Vec<u32> = vec![in alloc; u32::MAX; numbers]?;
        let marks: Vec<u32> = vec![in alloc; 0; numbers]?;
        Ok(GrowingOrder {
            alloc,
            out: Edges::none(alloc, numbers)?,
            into: Edges::none(alloc, numbers)?,
            ranks,
            given: 0,
            marks,
            mark: 0,
            steps: (numbers as u64).saturating_mul(STEPS_FOR_EACH),
        })
    }

    /// The rank of a number, or the greatest number.
    fn rank(&self, number: u32) -> u32 {
        self.ranks.get(number as usize).copied().unwrap_or(u32::MAX)
    }

    /// Puts a number after the others, if it is not among them.
    pub(crate) fn append(&mut self, number: u32) {
        if self.rank(number) != u32::MAX {
            return;
        }
        if let Some(rank) = self.ranks.get_mut(number as usize) {
            *rank = self.given;
            self.given = self.given.saturating_add(1);
        }
    }

    /// Whether edges lead from a number to one of some others.
    ///
    /// Fails for want of memory alone. O(m) for m edges from numbers between them.
    pub(crate) fn leads(&mut self, from: u32, to: &[u32]) -> Result<bool, AllocError> {
        let mut top = 0u32;
        for number in to {
            top = top.max(self.rank(*number));
        }
        if to.is_empty() || self.steps == 0 || self.rank(from) > top {
            return Ok(false);
        }
        self.reached(from, top)?;
        for number in to {
            if self.is_marked(*number) {
                return Ok(true);
            }
        }
        Ok(false)
    }

    /// Puts a number before another, unless edges lead the other way.
    ///
    /// Fails for want of memory alone. O(m log m) for m edges at numbers between them.
    pub(crate) fn add(&mut self, before: u32, after: u32) -> Result<(), AllocError> {
        if before == after || self.steps == 0 {
            return Ok(());
        }
        let low = self.rank(after);
        let high = self.rank(before);
        if low < high {
            let later = self.reached(after, high)?;
            if self.is_marked(before) {
                return Ok(());
            }
            let earlier = self.reaching(before, low)?;
            self.reorder(&earlier, &later)?;
        }
        self.out.push(before, after)?;
        self.into.push(after, before)
    }

    /// The numbers that edges lead to from a number, up to a rank.
    ///
    /// Fails for want of memory alone.
    fn reached(&mut self, from: u32, top: u32) -> Result<Vec<u32>, AllocError> {
        let mut found = self.begun(from)?;
        for place in 0..self.ranks.len() {
            let Some(number) = found.get(place).copied() else {
                break;
            };
            let mut link = self.out.first(number);
            for _edge in 0..self.out.edges.len() {
                let Some(edge) = self.out.edge(link) else {
                    break;
                };
                if self.rank(edge.other) <= top {
                    self.come_to(edge.other, &mut found)?;
                }
                link = edge.next;
            }
        }
        Ok(found)
    }

    /// The numbers from which edges lead to a number, down to a rank.
    ///
    /// Fails for want of memory alone.
    fn reaching(&mut self, to: u32, low: u32) -> Result<Vec<u32>, AllocError> {
        let mut found = self.begun(to)?;
        for place in 0..self.ranks.len() {
            let Some(number) = found.get(place).copied() else {
                break;
            };
            let mut link = self.into.first(number);
            for _edge in 0..self.into.edges.len() {
                let Some(edge) = self.into.edge(link) else {
                    break;
                };
                if self.rank(edge.other) >= low {
                    self.come_to(edge.other, &mut found)?;
                }
                link = edge.next;
            }
        }
        Ok(found)
    }

    /// Begins a search at a number.
    ///
    /// Fails for want of memory alone.
    fn begun(&mut self, number: u32) -> Result<Vec<u32>, AllocError> {
        self.mark = self.mark.saturating_add(1);
        let mut found = Vec::new(self.alloc);
        self.come_to(number, &mut found)?;
        Ok(found)
    }

    /// Puts a number after those that a search has found, unless it is among them.
    ///
    /// Fails for want of memory alone.
    fn come_to(&mut self, number: u32, found: &mut Vec<u32>) -> Result<(), AllocError> {
        self.steps = self.steps.saturating_sub(1);
        if self.is_marked(number) {
            return Ok(());
        }
        if let Some(mark) = self.marks.get_mut(number as usize) {
            *mark = self.mark;
            found.push(number)?;
        }
        Ok(())
    }

    /// Whether the last search came to a number.
    fn is_marked(&self, number: u32) -> bool {
        self.marks.get(number as usize).copied() == Some(self.mark)
    }

    /// Gives some numbers and some others their ranks anew, so that the former stand first, each in the order in which they stood.
    ///
    /// Fails for want of memory alone. O(n log n) for n numbers.
    fn reorder(&mut self, earlier: &[u32], later: &[u32]) -> Result<(), AllocError> {
        let mut moved = Vec::new(self.alloc);
        let mut ranks = Vec::new(self.alloc);
        for number in earlier {
            moved.push((false, self.rank(*number), *number))?;
            ranks.push(self.rank(*number))?;
        }
        for number in later {
            moved.push((true, self.rank(*number), *number))?;
            ranks.push(self.rank(*number))?;
        }
        moved.sort_unstable();
        ranks.sort_unstable();
        for place in 0..moved.len().min(ranks.len()) {
            let (_, _, number) = moved[place];
            if let Some(rank) = self.ranks.get_mut(number as usize) {
                *rank = ranks[place];
            }
        }
        Ok(())
    }
}
