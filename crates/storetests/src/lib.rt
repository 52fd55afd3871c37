// Tests of the stores: the plain store over both record kinds, and stores within stores.
#![tactic(auto)]

#[cfg(test)]
mod tests {
    use records::declines::Decline;
    use records::numbers::{TagNumbers, TareNumbers};
    use records::records::{TagRecord, TareRecord};
    use std::process::Abort;
    use stores::cells::Cell;
    use stores::joined::Joined;
    use stores::plain::Plain;
    use stores::store::Store;
    use stores::window::Window;

    // What a read shows: a record by its tag and grower or by its plate's first word and tare, nothing, or a decline's number.
    type Seen = Result<Option<(u64, u32)>, u8>;

    fn tag_at<S: Store<TagRecord>>(s: &S, at: u64) -> Seen {
        let cell = s.read(at).map_err(|decline| decline.number())?;
        Ok(cell.map(|held| (held.tag, held.grower)))
    }

    fn tare_at<S: Store<TareRecord>>(s: &S, at: u64) -> Seen {
        let cell = s.read(at).map_err(|decline| decline.number())?;
        Ok(cell.map(|held| (held.plate.first, held.tare)))
    }

    // A write's answer, with its decline by number.
    fn written(answer: Result<(), Decline>) -> Result<(), u8> {
        answer.map_err(|decline| decline.number())
    }

    fn tag(tag: u64, grower: u32, grain: u8) -> Cell<TagNumbers> {
        Some(TagNumbers { tag, grower, grain })
    }

    // The grower's number in a cell of plain numbers, lawful or not.
    fn grower(cell: Cell<TagNumbers>) -> u32 {
        cell.map_or(0, |numbers| numbers.grower)
    }

    // The plate with these first eight characters and no more.
    fn tare(plate: &[u8; 8], tare: u32) -> Cell<TareNumbers> {
        Some(TareNumbers {
            first: u64::from_be_bytes(*plate),
            second: 0x2020_2020,
            tare,
            day: 0,
        })
    }

    fn tags_plainly<S: Store<TagRecord>>(rt: &impl Abort, s: &mut S) {
        assert_eq!(rt; s.length(), 3);
        assert_eq!(rt; tag_at(s, 0), Ok(Some((1, 10))));
        assert_eq!(rt; tag_at(s, 1), Ok(None), "grain 0 makes no record");
        assert_eq!(rt; tag_at(s, 3), Err(13));
        assert_eq!(rt; written(s.write(0, &tag(4, 40, 10))), Err(4));
        assert_eq!(rt; written(s.write(3, &tag(4, 40, 10))), Err(4));
        assert_eq!(rt; written(s.write(3, &tag(4, 40, 9))), Err(13));
        assert_eq!(rt; written(s.write(3, &None)), Err(13));
        assert_eq!(rt; written(s.write(2, &tag(4, 40, 9))), Ok(()));
        assert_eq!(rt; tag_at(s, 0), Ok(Some((1, 10))));
        assert_eq!(rt; tag_at(s, 2), Ok(Some((4, 40))));
        assert_eq!(rt; s.length(), 3);
    }

    #[test]
    fn plain_tags(rt: HostRuntime) {
        let mut cells = [tag(1, 10, 1), tag(2, 20, 0), tag(3, 30, 9)];
        tags_plainly(&rt, &mut Plain { cells: &mut cells });
        assert_eq!(rt; grower(cells[0]), 10);
        assert_eq!(rt;
            grower(cells[1]),
            20,
            "a cell that was not written keeps its numbers"
        );
        assert_eq!(rt; grower(cells[2]), 40);
    }

    fn tares_plainly<S: Store<TareRecord>>(rt: &impl Abort, s: &mut S) {
        let red = u64::from_be_bytes(*b"RED1    ");
        let blue = u64::from_be_bytes(*b"BLUE7   ");
        assert_eq!(rt; s.length(), 3);
        assert_eq!(rt; tare_at(s, 0), Ok(Some((red, 8000))));
        assert_eq!(rt; tare_at(s, 1), Ok(None), "a plate has no small letters");
        assert_eq!(rt; tare_at(s, 2), Ok(None));
        assert_eq!(rt; tare_at(s, 3), Err(13));
        assert_eq!(rt; written(s.write(2, &tare(b"BLUE 7  ", 9000))), Err(3));
        assert_eq!(rt;
            written(s.write(3, &tare(b"BLUE 7  ", 0))),
            Err(3),
            "3 comes before 4"
        );
        assert_eq!(rt;
            written(s.write(3, &tare(b"BLUE7   ", 0))),
            Err(4),
            "and 4 before 13"
        );
        assert_eq!(rt; written(s.write(2, &tare(b"BLUE7   ", 100_001))), Err(4));
        assert_eq!(rt; written(s.write(3, &tare(b"BLUE7   ", 100_000))), Err(13));
        assert_eq!(rt; tare_at(s, 2), Ok(None));
        assert_eq!(rt; written(s.write(2, &tare(b"BLUE7   ", 100_000))), Ok(()));
        assert_eq!(rt; tare_at(s, 0), Ok(Some((red, 8000))));
        assert_eq!(rt; tare_at(s, 1), Ok(None));
        assert_eq!(rt; tare_at(s, 2), Ok(Some((blue, 100_000))));
        assert_eq!(rt; written(s.write(0, &None)), Ok(()));
        assert_eq!(rt; tare_at(s, 0), Ok(None));
    }

    #[test]
    fn plain_tares(rt: HostRuntime) {
        let mut cells = [tare(b"RED1    ", 8000), tare(b"blue7   ", 9000), None];
        tares_plainly(&rt, &mut Plain { cells: &mut cells });
    }

    // Through a window on the join of two cells and a window on the middle two of four, from its second cell on.
    fn through_all<S: Store<TagRecord>>(rt: &impl Abort, s: &mut S) {
        assert_eq!(rt; s.length(), 3, "cut off at the end of the inner store");
        assert_eq!(rt; tag_at(s, 0), Ok(Some((2, 20))));
        assert_eq!(rt; tag_at(s, 1), Ok(Some((4, 40))));
        assert_eq!(rt; tag_at(s, 2), Ok(Some((5, 50))));
        assert_eq!(rt; tag_at(s, 3), Err(13));
        assert_eq!(rt; written(s.write(3, &tag(7, 70, 0))), Err(4));
        assert_eq!(rt; written(s.write(3, &tag(7, 70, 1))), Err(13));
        assert_eq!(rt; written(s.write(0, &tag(8, 80, 1))), Ok(()));
        assert_eq!(rt; written(s.write(2, &tag(9, 90, 1))), Ok(()));
        assert_eq!(rt; tag_at(s, 0), Ok(Some((8, 80))));
        assert_eq!(rt; tag_at(s, 1), Ok(Some((4, 40))));
        assert_eq!(rt; tag_at(s, 2), Ok(Some((9, 90))));
    }

    fn window_on<S: Store<TagRecord>>(rt: &impl Abort, s: &mut S) {
        let mut part = Window {
            inner: s,
            start: 1,
            len: 9,
        };
        through_all(rt, &mut part);
    }

    fn joined_with<A: Store<TagRecord>, B: Store<TagRecord>>(
        rt: &impl Abort,
        a: &mut A,
        b: &mut B,
    ) {
        let mut both = Joined {
            first: a,
            second: b,
        };
        window_on(rt, &mut both);
    }

    fn on_part<A: Store<TagRecord>, B: Store<TagRecord>>(rt: &impl Abort, a: &mut A, b: &mut B) {
        let mut part = Window {
            inner: b,
            start: 1,
            len: 2,
        };
        joined_with(rt, a, &mut part);
    }

    #[test]
    fn nested(rt: HostRuntime) {
        let mut left = [tag(1, 10, 1), tag(2, 20, 2)];
        let mut right = [tag(3, 30, 3), tag(4, 40, 4), tag(5, 50, 5), tag(6, 60, 6)];
        on_part(
            &rt,
            &mut Plain { cells: &mut left },
            &mut Plain { cells: &mut right },
        );
        assert_eq!(rt; grower(left[0]), 10);
        assert_eq!(rt; grower(left[1]), 80);
        assert_eq!(rt; grower(right[0]), 30);
        assert_eq!(rt; grower(right[1]), 40);
        assert_eq!(rt; grower(right[2]), 90);
        assert_eq!(rt; grower(right[3]), 60);
    }

    // Nothing lies in a window that starts at the end of a store, or past it.
    fn nothing_in<S: Store<TagRecord>>(rt: &impl Abort, s: &mut S) {
        assert_eq!(rt; s.length(), 0);
        assert_eq!(rt; tag_at(s, 0), Err(13));
        assert_eq!(rt; written(s.write(0, &tag(1, 10, 0))), Err(4));
        assert_eq!(rt; written(s.write(0, &tag(1, 10, 1))), Err(13));
    }

    fn window_from<S: Store<TagRecord>>(rt: &impl Abort, s: &mut S, start: u64) {
        let mut part = Window {
            inner: s,
            start,
            len: 2,
        };
        nothing_in(rt, &mut part);
    }

    #[test]
    fn past_the_end(rt: HostRuntime) {
        let mut cells = [tag(1, 10, 1), tag(2, 20, 2)];
        window_from(&rt, &mut Plain { cells: &mut cells }, 2);
        window_from(&rt, &mut Plain { cells: &mut cells }, u64::MAX);
    }
}
