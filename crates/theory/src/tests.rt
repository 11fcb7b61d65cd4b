// Tables in lent words: filled to the last of them, and given back.
ghost use Rattle.std.specs.Prelude.{◌≡◌, ◌<◌, false, length};

use crate::declaration::Declaration;
use crate::ground::Ground;
use crate::table::Decls;
use lent::NoRoom;

// Whether fewer than four words take a declaration. When the table goes, they are as they were.
fn takes(words: &mut [u64], ground: Ground, declaration: Declaration) -> bool
    requires { length words.old < 4 }
    ensures no { result ≡ false }
    ensures left { words.new ≡ words.old }
{
    let mut decls = Decls::new(words, ground);
    decls.add(declaration).is_ok()
}

#[test]
fn filled(rt: HostRuntime) {
    let ground = Ground {
        arrow: 0,
        boolean: 0,
        equality: 1,
        choice: 2,
        equality_type: 3,
        choice_type: 4,
    };
    assert!(rt; !takes(&mut [9; 3], ground, Declaration::Type { name: 5 }));
    let mut words = [9; 8];
    let mut decls = Decls::new(&mut words, ground);
    assert_eq!(rt; decls.len(), 0);
    assert_eq!(rt; decls.add(Declaration::Type { name: 5 }), Ok(()));
    assert_eq!(rt; decls.add(Declaration::Axiom { name: 6, concl: 7 }), Ok(()));
    assert_eq!(rt; decls.add(Declaration::Type { name: 8 }), Err(NoRoom));
    assert_eq!(rt; decls.len(), 2);
}
