// The answer sheet: a place for each line's word, over a slice that the caller lends.
ghost use Rattle.std.specs.Prelude.{◌≡◌, ◌<◌, ◌≤◌, length, Some, MatchOption, nat_lt, slice_get, slice_index_or, slice_set};
ghost use Rattle.tables.specs.Lines.{nth};
ghost use Rattle.rules.specs.Sheets.{IsSameLoan};

// A sheet does not know its kind of word: one and the same sheet serves where there are only numbers and no kind.
/// Places for words of any kind, lent by the caller.
#[derive(Drop)]
pub struct Sheet<'a, W> {
    places: &'a mut [W],
}

// The word at a place, if there is such a place; nothing changes. A lent slice is handed on as it is lent, for writing.
fn read_place<W: Copy>(places: &mut [W], i: usize) -> Option<W>
    ensures value { result ≡ slice_get places.old i }
    ensures same { places.new ≡ places.old }
{
    places.get(i).copied()
}

// Writes a word at a place, and nothing else, and says whether there is such a place. By its index, since the contract of a
// slice's `get_mut` does not say what the slice ends as.
fn write_place<W: Copy>(places: &mut [W], i: usize, word: W) -> bool
    ensures done { result ≡ nat_lt i (length places.old) }
    ensures after { places.new ≡ slice_set places.old i word }
{
    if i >= places.len() {
        return false;
    }
    places[i] = word;
    true
}

impl<'a, W: Copy> Sheet<'a, W> {
    /// A sheet over these places, with the words that stand there.
    pub fn over(places: &'a mut [W]) -> Sheet<'a, W>
        ensures value { result.places.now ≡ places.old }
        ensures named { result.places.ghost_name ≡ places.entry.ghost_name }
    {
        Sheet { places }
    }

    /// How many places there are.
    pub fn size(&self) -> usize
        ensures { result ≡ length self.now.places.now }
    {
        self.places.len()
    }

    /// The word at a place, counted from 0, if there is such a place; nothing changes.
    pub fn get(&mut self, i: usize) -> Option<W>
        ensures value { result ≡ nth self.old.places.now i }
        ensures cases { MatchOption result (length self.old.places.now ≤ i) (λ _. i < length self.old.places.now) }
        ensures inside { i < length self.old.places.now → (d : W) → result ≡ Some (slice_index_or self.old.places.now i d) }
        ensures same { self.new ≡ self.old }
    {
        read_place(self.places, i)
    }

    /// Writes a word at a place, counted from 0, and says whether there is such a place; where there is none, nothing changes.
    pub fn put(&mut self, i: usize, word: W) -> bool
        ensures done { result ≡ nat_lt i (length self.old.places.now) }
        ensures after { self.new.places.now ≡ slice_set self.old.places.now i word }
        ensures past { length self.old.places.now ≤ i → self.new ≡ self.old }
        ensures named { IsSameLoan self.old self.new }
    {
        write_place(self.places, i, word)
    }
}

#[cfg(test)]
mod tests {
    use super::Sheet;
    use crate::words::{NumberWords, Origin, OriginWords, WordKind};
    use tables::line_id::LineId;

    #[test]
    fn numbers_stand_where_they_were_put(rt: HostRuntime) {
        let mut places = [NumberWords.start(0); 3];
        let mut sheet = Sheet::over(&mut places);
        assert!(rt;
            sheet.put(
                1,
                NumberWords.written(
                    7,
                    LineId {
                        processor: 1,
                        line: 2
                    }
                )
            )
        );
        assert!(rt;
            !sheet.put(
                3,
                NumberWords.written(
                    9,
                    LineId {
                        processor: 1,
                        line: 4
                    }
                )
            )
        );
        assert_eq!(rt; sheet.get(0), Some(0));
        assert_eq!(rt; sheet.get(1), Some(7));
        assert_eq!(rt; sheet.get(3), None);
    }

    #[test]
    fn origins_stand_where_they_were_put(rt: HostRuntime) {
        let mut places = [OriginWords.start(5); 3];
        let mut sheet = Sheet::over(&mut places);
        assert!(rt;
            sheet.put(
                1,
                OriginWords.written(
                    7,
                    LineId {
                        processor: 1,
                        line: 2
                    }
                )
            )
        );
        assert!(rt;
            !sheet.put(
                3,
                OriginWords.written(
                    9,
                    LineId {
                        processor: 1,
                        line: 4
                    }
                )
            )
        );
        assert_eq!(rt; sheet.get(0), Some(Origin::Start(5)));
        assert_eq!(rt;
            sheet.get(1),
            Some(Origin::Line(LineId {
                processor: 1,
                line: 2
            }))
        );
        assert_eq!(rt; sheet.get(3), None);
    }
}
