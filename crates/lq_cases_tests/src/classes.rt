// Classes that begin with nothing, and two hundred merges that are taken back one by one.
use lq_logic_predicates::{Mark, Symbol};
use lq_prover_congruence::classes::{Classes, Head, Ids};
use std::alloc::{AllocError, Global};
use std::test::Fail;

// For each of 201 terms one of its class, by the merges alone.
fn labels_by(alloc: Global, merges: &[(u64, u64)]) -> Result<Vec<u64>, AllocError> {
    let mut labels = Vec::new(alloc);
    for term in 0..201 {
        labels.push(term)?;
    }
    for (left, right) in merges {
        let from = labels.get(*left as usize).copied();
        let to = labels.get(*right as usize).copied();
        let (Some(from), Some(to)) = (from, to) else {
            continue;
        };
        for label in labels.iter_mut() {
            if *label == from {
                *label = to;
            }
        }
    }
    Ok(labels)
}

// Whether the same terms have one label, for all pairs.
fn agrees(classes: &Classes, labels: &[u64]) -> bool {
    let count = classes.len();
    for (a, left) in labels.iter().enumerate() {
        for (b, right) in labels.iter().enumerate() {
            let (a, b) = (a as u64, b as u64);
            if a >= count || b >= count || classes.same(a, b) != (*left == *right) {
                return false;
            }
        }
    }
    true
}

// So many names.
fn names(alloc: Global, count: u32) -> Result<Classes, AllocError> {
    let mut classes = Classes::new(alloc)?;
    let none = Ids::new(alloc)?;
    for name in 0..count {
        classes.add_term(Head::Symbol(Symbol::Position(name)), &none)?;
    }
    Ok(classes)
}

#[test]
fn two_hundred_merges_are_taken_back(rt: HostRuntime) -> Result<(), Fail> {
    let alloc = rt.alloc();
    let mut classes = names(alloc, 201)?;
    let mut merges = Vec::new(alloc);
    let mut marks = Vec::new(alloc);
    for at in 0..200_u64 {
        let (left, right) = ((at * 37 + 11) % 201, (at * 91 + 3) % 201);
        let count = classes.len();
        if left < count && right < count {
            classes.merge(left, right, at)?;
            merges.push((left, right))?;
            let Mark(steps) = classes.mark();
            marks.push(steps)?;
        }
    }
    assert_eq!(rt; merges.len(), 200);
    for steps in marks.iter().rev() {
        let Mark(stand) = classes.mark();
        assert!(rt; *steps <= stand);
        classes.back_to(Mark(*steps));
        let labels = labels_by(alloc, &merges)?;
        assert!(rt; agrees(&classes, &labels));
        merges.pop();
    }
    Ok(())
}

#[test]
fn begins_with_nothing(rt: HostRuntime) -> Result<(), Fail> {
    let classes = Classes::new(rt.alloc())?;
    let Mark(steps) = classes.mark();
    assert_eq!(rt; steps, 0);
    Ok(())
}
