// Examples of the reader, run as tests: what a text is answered under RANK.
#![tactic(auto)]

use clearer::Rank;
use reader::read;
use records::BLANK;
use records::limits::MOST_LINES;

// The number and the line of the fault that reading the text under RANK gives; 0 and 0 where it gives none, so that a test
// is a table of texts and pairs.
pub fn answer(text: &[u8]) -> (u8, usize) {
    let mut sheet = [BLANK; MOST_LINES];
    match read::<Rank>(text, &mut sheet) {
        Ok(()) => (0, 0),
        Err(fault) => (fault.number(), fault.line()),
    }
}

#[cfg(test)]
mod tests {
    use super::*;
    use clearer::Zone;
    use records::Record;
    use records::limits::MOST_BYTES;
    use std::test::Fail;
    use tasks::{Lists, Tasks, Threads};

    // The operations of the main task. They are of the records, so they outlive the lists by which they are found.
    fn main_body(records: &[Record]) -> &[Record] {
        let lists = Lists::of(records);
        let tasks = Tasks {
            records,
            rows: lists.task_rows(),
        };
        tasks.body_of(tasks.main())
    }

    #[test]
    fn bytes_of_a_line(rt: HostRuntime) {
        assert_eq!(rt; answer(b"P,RANK"), (3, 1));
        assert_eq!(rt; answer(b"P,RANK\nT,main\n"), (3, 2));
        assert_eq!(rt; answer(b"P,RANK\r\nT,M\r\n"), (3, 1));
        assert_eq!(rt;
            answer(b"P,RANK\nT,AAAAAAAAAAAAAAAAAAAAAAAAAAAAAAAAAAAAAAA\n"),
            (3, 2)
        );
        assert_eq!(rt;
            answer(b"P,RANK\nT,AAAAAAAAAAAAAAAAAAAAAAAAAAAAAAAAAAAAAA\n"),
            (6, 2)
        );
    }

    #[test]
    fn letters_and_sections(rt: HostRuntime) {
        assert_eq!(rt; answer(b"\n"), (4, 1));
        assert_eq!(rt; answer(b"C,A,1\n"), (4, 1));
        assert_eq!(rt; answer(b"P,RANK\nP,RANK\n"), (4, 2));
        assert_eq!(rt; answer(b"P,RANK\nT,A\nC,B,1\n"), (4, 3));
        assert_eq!(rt; answer(b"P,RANK\nC,A,1\nT,M\nR,A\nQ,A,1\n"), (4, 5));
        assert_eq!(rt; answer(b"P,RANK\nPT,A\n"), (4, 2));
    }

    #[test]
    fn fields_and_forms(rt: HostRuntime) {
        assert_eq!(rt; answer(b"P\n"), (5, 1));
        assert_eq!(rt; answer(b"P,RANK,\n"), (5, 1));
        assert_eq!(rt; answer(b"P,RANK\nC,A,1,2\n"), (5, 2));
        assert_eq!(rt; answer(b"P,\n"), (6, 1));
        assert_eq!(rt; answer(b"P,ZONE\n"), (6, 1));
        assert_eq!(rt; answer(b"P,RANK\nC,A,01\n"), (6, 2));
        assert_eq!(rt; answer(b"P,RANK\nC,A,-0\n"), (6, 2));
        assert_eq!(rt; answer(b"P,RANK\nC,A,10000\n"), (6, 2));
        assert_eq!(rt; answer(b"P,RANK\nC,A,18446744073709551617\n"), (6, 2));
        assert_eq!(rt; answer(b"P,RANK\nC,A,1\nT,M\nQ,A,0\n"), (6, 4));
    }

    #[test]
    fn names_and_pairs(rt: HostRuntime) {
        assert_eq!(rt; answer(b"P,RANK\nC,A,1\nT,A\n"), (7, 3));
        assert_eq!(rt; answer(b"P,RANK\nC,A,1\nT,M\nA,A\n"), (8, 4));
        assert_eq!(rt; answer(b"P,RANK\nT,M\nF,M\n"), (8, 3));
        assert_eq!(rt; answer(b"P,RANK\nC,A,1\nW,A,A,1\nW,A,A,2\n"), (9, 4));
        assert_eq!(rt; answer(b"P,RANK\nC,A,1\nT,M\nQ,A,1\nQ,A,2\n"), (9, 5));
        assert_eq!(rt;
            answer(
                b"P,RANK\nK,K0,1\nK,K1,1\nK,K2,1\nK,K3,1\nK,K4,1\nK,K5,1\nK,K6,1\nK,K7,1\nK,K8,1\nK,K9,1\nK,K10,1\nK,K11,1\nK,K12,1\nK,K13,1\nK,K14,1\nK,K15,1\nK,K16,1\nK,K17,1\nK,K18,1\nK,K19,1\nK,K20,1\nK,K21,1\nK,K22,1\nK,K23,1\nK,K24,1\nK,K25,1\nK,K26,1\nK,K27,1\nK,K28,1\nK,K29,1\nK,K30,1\nK,K31,1\nK,K32,1\n",
            ),
            (10, 34)
        );
    }

    #[test]
    fn after_all_lines(rt: HostRuntime) {
        assert_eq!(rt; answer(b""), (11, 0));
        assert_eq!(rt; answer(b"P,RANK\n"), (11, 0));
        assert_eq!(rt; answer(b"P,RANK\nT,A\nT,B\n"), (12, 2));
        assert_eq!(rt; answer(b"P,RANK\nC,A,1\nT,M\nQ,A,1\n"), (13, 3));
        assert_eq!(rt;
            answer(
                b"P,RANK\nT,A\nT,B\nF,A\nF,A\nT,C\nF,B\nF,B\nT,D\nF,C\nF,C\nT,E\nF,D\nF,D\nT,F\nF,E\nF,E\nT,G\nF,F\nF,F\n",
            ),
            (14, 0)
        );
        assert_eq!(rt;
            answer(
                b"P,RANK\nC,X,1\nT,A\nS,X,1\nS,X,1\nS,X,1\nS,X,1\nS,X,1\nS,X,1\nS,X,1\nS,X,1\nS,X,1\nS,X,1\nS,X,1\nS,X,1\nS,X,1\nS,X,1\nS,X,1\nS,X,1\nS,X,1\nS,X,1\nS,X,1\nS,X,1\nS,X,1\nS,X,1\nS,X,1\nS,X,1\nS,X,1\nS,X,1\nS,X,1\nS,X,1\nS,X,1\nS,X,1\nS,X,1\nS,X,1\nT,M\nF,A\nF,A\nF,A\nF,A\nF,A\nF,A\nF,A\nF,A\nF,A\nF,A\nF,A\nF,A\nF,A\nF,A\nF,A\nF,A\nF,A\nF,A\nF,A\nF,A\nF,A\nF,A\nF,A\nF,A\nF,A\nF,A\nF,A\nF,A\nF,A\nF,A\nF,A\nF,A\n",
            ),
            (15, 0)
        );
    }

    #[test]
    fn plans_are_read(rt: HostRuntime) {
        assert_eq!(rt; answer(b"P,RANK\nT,M\n"), (0, 0));
        assert_eq!(rt;
            answer(
                b"P,RANK\nC,A,9999\nK,B,0\nW,A,A,100\nT,T1\nQ,A,-100\nS,A,65535\nR,A\nA,B\nL,B\nT,M\nF,T1\nF,T1\n",
            ),
            (0, 0)
        );
        assert_eq!(rt;
            answer(b"P,RANK\nC,A,1\nC,B,1\nW,A,B,1\nW,B,A,1\nT,X\nQ,A,1\nT,M\nF,X\n"),
            (0, 0)
        );
    }

    #[test]
    fn too_long_or_too_short(rt: HostRuntime) -> Result<(), Fail> {
        let long = [b'A'; 32769];
        assert_eq!(rt; answer(&long), (1, 0));
        assert_eq!(rt; answer(&long[0..MOST_BYTES]), (3, 1));
        let mut short = [BLANK; 3];
        short[1].letter = 'X';
        match read::<Rank>(b"P,RANK\nT,M\n", &mut short) {
            Ok(()) => return Err(Fail::new("a short sheet was taken")),
            Err(fault) => assert_eq!(rt; (fault.number(), fault.line()), (2, 0)),
        }
        assert!(rt; short[1] == BLANK);
        Ok(())
    }

    #[test]
    fn sheet_after_reading(rt: HostRuntime) {
        let text = b"P,RANK\nC,A,7\nT,M\nS,A,9\n";
        let mut sheet = [BLANK; MOST_LINES];
        sheet[5].letter = 'X';
        assert!(rt; read::<Rank>(text, &mut sheet).is_ok());
        assert_eq!(rt;
            (
                sheet[1].letter,
                sheet[1].number,
                sheet[1].name.start,
                sheet[1].name.size,
            ),
            ('C', 7, 9, 1)
        );
        assert_eq!(rt;
            (sheet[3].letter, sheet[3].first, sheet[3].number),
            ('S', 0, 9)
        );
        assert!(rt; sheet[5] == BLANK);
        assert!(rt; reader::check::<Rank>(text, &sheet).is_ok());
        assert!(rt; reader::check::<Zone>(text, &sheet).is_err());
        sheet[799].first = 1;
        assert!(rt; reader::check::<Rank>(text, &sheet).is_err());
    }

    #[test]
    fn bodies_and_copies(rt: HostRuntime) {
        let mut sheet = [BLANK; MOST_LINES];
        assert!(rt; read::<Rank>(b"P,RANK\nC,A,1\nT,M\nS,A,5\nR,A\n", &mut sheet).is_ok());
        assert_eq!(rt; main_body(&sheet).len(), 2);
        let mut lists = Lists::new();
        let before = lists;
        assert!(rt; lists.push(sheet[0]).is_ok());
        assert_eq!(rt; (before.len(), lists.len()), (0, 1));
        let all = Lists::of(&sheet);
        let tasks = Tasks {
            records: &sheet,
            rows: all.task_rows(),
        };
        assert_eq!(rt; tasks.thread_count(0), 1);
        let threads = Threads::of(&tasks);
        let copied = threads.map(|table| (table, table));
        assert!(rt; copied.is_some_and(|(a, b)| a.moves(&tasks) == 3 && b.sends(&tasks) == 1));
    }
}
