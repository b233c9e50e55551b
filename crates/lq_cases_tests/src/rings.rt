// Circular lists that are joined, split and grown.
ghost use Rattle.std.specs.Prelude.{◌<◌, length};

use lq_prover_congruence::ring::Rings;
use std::alloc::{AllocError, Global};
use std::test::Fail;

fn ring(alloc: Global, rings: &Rings, from: u64) -> Result<Vec<u64>, AllocError>
    requires { from < length rings.now }
{
    rings.walk(from).collect(alloc)
}

#[test]
fn joins_and_splits(rt: HostRuntime) -> Result<(), Fail> {
    let mut rings = Rings::new(rt.alloc(), 4)?;
    for other in 1..3 {
        assert!(rt; rings.len() == 4);
        if !rings.is_together(0, other) {
            rings.splice(0, other);
        }
    }
    assert!(rt; rings.len() == 4);
    assert_eq!(rt;
        ring(rt.alloc(), &rings, 0)?.as_slice(),
        [0, 2, 1].as_slice()
    );
    assert_eq!(rt; ring(rt.alloc(), &rings, 3)?.as_slice(), [3].as_slice());
    if rings.is_together(0, 2) {
        rings.split_after(0, 2);
    }
    assert!(rt; rings.len() == 4);
    assert_eq!(rt; ring(rt.alloc(), &rings, 0)?.as_slice(), [0, 1].as_slice());
    assert_eq!(rt; ring(rt.alloc(), &rings, 2)?.as_slice(), [2].as_slice());
    Ok(())
}

#[test]
fn grows(rt: HostRuntime) -> Result<(), Fail> {
    let mut rings = Rings::new(rt.alloc(), 1)?;
    assert_eq!(rt; rings.push()?, 1);
    assert!(rt; rings.len() == 2);
    if !rings.is_together(1, 0) {
        rings.splice(1, 0);
    }
    assert!(rt; rings.len() == 2);
    assert_eq!(rt; ring(rt.alloc(), &rings, 0)?.as_slice(), [0, 1].as_slice());
    Ok(())
}
