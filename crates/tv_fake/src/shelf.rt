//! Objects by name, in order.

ghost use Rattle.std.specs.Prelude.{◌≡◌, None, IfSome, IfNone};
ghost use Rattle.std.specs.Option.{option_copied};
ghost use Rattle.std.specs.List.{position_from};
ghost use Rattle.tv_out.specs.Shelf.{first_named, without_first};
ghost use Rattle.tv_fake.specs.Shelf.{objects, is_named, IsFirstAt};

/// An object with its name.
#[derive(Drop)]
pub struct Named<T> {
    /// The name.
    pub name: String,
    /// The object.
    pub object: T,
}

impl<T> Named<T> {
    /// An object with this name.
    pub fn new(name: String, object: T) -> Named<T>
        ensures { result ≡ record { name = name; object = object } }
    {
        Named { name, object }
    }
}

/// Where the first object of this name stands.
pub fn position_of<T>(shelf: &Vec<Named<T>>, name: &str) -> Option<usize>
    ensures found { IfSome result (λ at. IsFirstAt name.now shelf.now.items at) }
    ensures none { IfNone result (first_named name.now (objects shelf.now.items) ≡ None) }
{
    place_of(shelf, name)
}

fn place_of<T>(shelf: &Vec<Named<T>>, name: &str) -> Option<usize>
    ensures { result ≡ position_from (is_named name.now) 0 shelf.now.items }
{
    shelf.iter().position(|entry| entry.name.as_str() == name)
}

/// The first object of this name.
pub fn find_named<'a, T>(shelf: &'a Vec<Named<T>>, name: &str) -> Option<&'a T>
    ensures { option_copied result ≡ first_named name.now (objects shelf.now.items) }
{
    match position_of(shelf, name) {
        Some(at) => Some(&shelf[at].object),
        None => None,
    }
}

/// Takes the first object of this name out.
#[tactic(auto, using(crate::proofs::Places::without_none))]
pub fn take_named<T>(shelf: &mut Vec<Named<T>>, name: &str) -> Option<T>
    ensures object { result ≡ first_named name.now (objects shelf.old.items) }
    ensures rest { objects shelf.new.items ≡ without_first name.now (objects shelf.old.items) }
{
    match position_of(shelf, name) {
        Some(at) => {
            let Named { name: _, object } = shelf.remove(at);
            Some(object)
        }
        None => None,
    }
}
