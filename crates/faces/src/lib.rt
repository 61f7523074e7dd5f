// The faces in their order: sets of constraints, by size, then in dictionary order, each worked out from the one before.
#![tactic(auto)]

ghost use Rattle.std.specs.Prelude.{◌≡◌};
ghost use Rattle.faces.specs.Faces.{member_of, face_marks};
ghost use Rattle.faces.specs.Next.{after_one, after_two, after_three, next_of};

// A face: how many of its constraints are held, and which, rising; what is not used is 0. The default is the empty face.
#[derive(Clone, Copy, Default)]
pub struct Face {
    pub size: usize,
    pub a: usize,
    pub b: usize,
    pub c: usize,
}

// Member number s of a face.
fn member(f: Face, s: usize) -> usize
    ensures { result ≡ member_of f s }
{
    match s {
        0 => f.a,
        1 => f.b,
        _ => f.c,
    }
}

// The face after one of one constraint, of seven.
// Stays: the three sizes have functions of their own, since one over all of them would be a loop back over the members and one on over those behind, with as many tests.
#[tactic(auto, unfolding(crate::specs::Next::after_one))]
fn after_one(f: Face) -> Face
    ensures { result ≡ after_one 7 f }
{
    if f.a < 6 {
        return Face {
            size: 1,
            a: f.a + 1,
            ..Face::default()
        };
    }
    Face {
        size: 2,
        b: 1,
        ..Face::default()
    }
}

#[tactic(auto, unfolding(crate::specs::Next::after_two))]
fn after_two(f: Face) -> Face
    ensures { result ≡ after_two 7 f }
{
    if f.b < 6 {
        return Face {
            size: 2,
            b: f.b + 1,
            c: 0,
            ..f
        };
    }
    if f.a < 5 {
        return Face {
            size: 2,
            a: f.a + 1,
            b: f.a + 2,
            c: 0,
        };
    }
    Face {
        size: 3,
        a: 0,
        b: 1,
        c: 2,
    }
}

#[tactic(auto, unfolding(crate::specs::Next::after_three))]
fn after_three(f: Face) -> Face
    ensures { result ≡ after_three 7 f }
{
    if f.c < 6 {
        return Face {
            size: 3,
            c: f.c + 1,
            ..f
        };
    }
    if f.b < 5 {
        return Face {
            size: 3,
            b: f.b + 1,
            c: f.b + 2,
            ..f
        };
    }
    if f.a >= 4 {
        return Face { size: 3, ..f };
    }
    Face {
        size: 3,
        a: f.a + 1,
        b: f.a + 2,
        c: f.a + 3,
    }
}

// The face after f, of at most three of seven constraints. The last one stays.
#[tactic(auto, unfolding(crate::specs::Next::next_of))]
pub fn next(f: Face) -> Face
    ensures { result ≡ next_of 7 f }
{
    match f.size {
        0 => Face {
            size: 1,
            ..Face::default()
        },
        1 => after_one(f),
        2 => after_two(f),
        _ => after_three(f),
    }
}

// The seven marks of a face; a member that is none of the seven has none.
pub fn marks(f: Face) -> [bool; 7]
    ensures { result ≡ face_marks f }
{
    let mut t = [false; 7];
    // Stays: the members are three fields, no slice to go over.
    for s in 0..f.size {
        let c = member(f, s);
        if c < 7 {
            t[c] = true;
        }
    }
    t
}
