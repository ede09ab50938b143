// A table that is kept in std's ordered map.
ghost use Rattle.std.specs.Prelude.{◌≡◌, []};
ghost use Rattle.gm_table.specs.Sorted.{IsRising, IsRising-prop};

use crate::changes::{put_rows, remove_keys};
use crate::cursor::{Cursor, scan_range};
use crate::{Batch, Sorted, Visit};
use gm_base::{Bytes, NoMemory, SpanList, Tally};
use std::alloc::Global;
use std::collections::BTreeMap;
use std::ops::Range;

/// A table over std's `BTreeMap`.
#[derive(Debug, Drop)]
pub struct MapTable {
    map: BTreeMap<Bytes, Bytes>,
    ghost rising: { IsRising map.entries } by { IsRising-prop map.entries },
}

impl MapTable {
    /// A table with no row. It takes no memory.
    pub fn new(alloc: Global) -> MapTable
        ensures { ⟦<MapTable as Sorted>⟧.rows result ≡ [] }
    {
        MapTable {
            map: BTreeMap::new(alloc),
        }
    }
}

impl Sorted for MapTable {
    type Tally = Tally;

    ghost rows = { λ table. table.map.entries };

    ghost rising = { λ table. table.rising };

    fn get(&self, key: &Bytes, tally: &mut Tally) -> Option<&[u8]> {
        match self.map.get(key) {
            Some(bytes) => {
                tally.add(1);
                Some(bytes.as_slice())
            }
            None => None,
        }
    }

    fn scan<V: Visit>(
        &self,
        alloc: Global,
        low: &Bytes,
        high: &Bytes,
        visit: &mut V,
        tally: &mut Tally,
    ) -> Result<(), NoMemory> {
        scan_range(alloc, &self.map, low, high, visit, tally)
    }

    fn scan_between<V: Visit>(
        &self,
        alloc: Global,
        low: &[u8],
        high: &[u8],
        visit: &mut V,
        tally: &mut Tally,
    ) -> Result<(), NoMemory> {
        let mut room = Bytes::new(alloc);
        let mut cursor = Cursor::at(&self.map, low, &mut room);
        cursor.scan(&self.map, alloc, low, high, &mut room, visit, tally)
    }

    fn scan_spans<V: Visit>(
        &self,
        alloc: Global,
        spans: &SpanList,
        part: Range<usize>,
        visit: &mut V,
        tally: &mut Tally,
    ) -> Result<(), NoMemory> {
        if part.start == part.end {
            return Ok(());
        }
        let mut room = Bytes::new(alloc);
        let mut cursor = Cursor::at(&self.map, spans.get(part.start).0, &mut room);
        for i in part.start..part.end {
            let (low, high) = spans.get(i);
            cursor.scan(&self.map, alloc, low, high, &mut room, visit, tally)?;
        }
        Ok(())
    }

    fn apply(&mut self, alloc: Global, batch: &Batch) -> Result<(), NoMemory> {
        put_rows(alloc, &mut self.map, batch.puts.as_slice())?;
        remove_keys(&mut self.map, batch.removes.as_slice());
        Ok(())
    }

    fn count(&self) -> u64 {
        self.map.len() as u64
    }
}
