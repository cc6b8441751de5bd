//! The words of tickets, at both ends of their range and between.
use mc_model::{Ticket, WorkerId};
use std::test::Fail;
use uc_places::{ticket_in, word_of};

#[test]
fn tickets_have_these_words(rt: HostRuntime) -> Result<(), Fail> {
    let first = Ticket {
        worker: WorkerId::new(0).unwrap(),
        number: 0,
    };
    let second = Ticket {
        worker: WorkerId::new(1).unwrap(),
        number: 2,
    };
    let last = Ticket {
        worker: WorkerId::new(15).unwrap(),
        number: 1_048_575,
    };
    assert_eq!(rt; word_of(&first), 1);
    assert_eq!(rt; word_of(&second), 514);
    assert_eq!(rt; word_of(&last), 268_435_216);
    assert!(rt; ticket_in(1) == first);
    assert!(rt; ticket_in(514) == second);
    assert!(rt; ticket_in(268_435_216) == last);
    Ok(())
}
