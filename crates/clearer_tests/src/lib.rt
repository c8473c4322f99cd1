// Examples of the clearer, run as tests: the verdict on the plan of a text.
#![tactic(auto)]

use clearer::{ClearFault, Clearance, clear};
use plan::Plan;
use reader::{check, read};
use records::limits::MOST_LINES;
use records::{BLANK, WrittenOrder};
use rules::Account;

// The moves of a plan under an order that clears it; else the fault.
fn cleared_moves<O: WrittenOrder>(plan: Plan) -> Result<usize, ClearFault> {
    clear::<O>(&plan, &mut Account::empty())?;
    let clearance = Clearance::<O>::new(plan);
    Ok(clearance.plan().moves())
}

// What is said of the plan of a text.
#[derive(Clone, Copy, PartialEq, Eq, Debug)]
pub enum Verdict {
    NoPlan,
    Cleared { moves: usize },
    // the number, the line and the object of the first breach
    Breach(u8, usize, usize),
}

// The verdict on the plan of a text under an order.
pub fn verdict_on<O: WrittenOrder>(text: &[u8]) -> Verdict {
    let mut sheet = [BLANK; MOST_LINES];
    if read::<O>(text, &mut sheet).is_err() || check::<O>(text, &sheet).is_err() {
        return Verdict::NoPlan;
    }
    match cleared_moves::<O>(Plan::new::<O>(text, &sheet)) {
        Ok(moves) => Verdict::Cleared { moves },
        Err(fault) => Verdict::Breach(fault.number(), fault.line, fault.object),
    }
}

#[cfg(test)]
mod tests {
    use super::*;
    use clearer::{Rank, Zone};

    #[test]
    fn marked_plans(rt: HostRuntime) {
        assert_eq!(rt;
            verdict_on::<Rank>(b"P,RANK\nT,MAIN\n"),
            Verdict::Cleared { moves: 1 }
        );
        assert_eq!(rt;
            verdict_on::<Rank>(b"P,RANK\nC,LOAD,5\nT,MAIN\nR,LOAD\n"),
            Verdict::Breach(21, 4, 0)
        );
        assert_eq!(rt;
            verdict_on::<Rank>(b"P,RANK\nK,AXIS,5\nT,MAIN\nA,AXIS\n"),
            Verdict::Breach(26, 3, 0)
        );
        assert_eq!(rt;
            verdict_on::<Zone>(
                b"P,ZONE\nK,LEFT,1,5\nK,RIGHT,2,9\nT,MAIN\nA,LEFT\nA,RIGHT\nL,RIGHT\nL,LEFT\n",
            ),
            Verdict::Breach(23, 6, 0)
        );
        assert_eq!(rt; verdict_on::<Rank>(b"P,RANK\n"), Verdict::NoPlan);
    }

    // A held lock bars a receive, a receive without a credit is named before that, and a debt before a lock that is held.
    #[test]
    fn which_is_named(rt: HostRuntime) {
        assert_eq!(rt;
            verdict_on::<Rank>(b"P,RANK\nC,A,5\nK,B,5\nT,MAIN\nS,A,0\nA,B\nR,A\n"),
            Verdict::Breach(22, 7, 1)
        );
        assert_eq!(rt;
            verdict_on::<Rank>(b"P,RANK\nC,A,5\nK,B,5\nT,MAIN\nA,B\nR,A\n"),
            Verdict::Breach(21, 6, 0)
        );
        assert_eq!(rt;
            verdict_on::<Rank>(b"P,RANK\nK,B,5\nC,A,3\nT,X\nQ,A,-1\nA,B\nT,MAIN\nF,X\n"),
            Verdict::Breach(25, 4, 1)
        );
    }
}
