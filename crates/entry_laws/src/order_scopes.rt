//! Laws of telescopes in another order: how long they are, and when their types are each over those before them.
ghost use Rattle.entry_laws.specs.order_scopes.Laws.{OrderedPlaces, OrderedScoped, RecursionOrdered};

/// A telescope is scoped, with a term over it, in another order too, where each type comes after all that it mentions.
pub fn ordered_scoped()
    ensures { OrderedScoped }
{}

/// The order of recursion is such an order.
pub fn recursion_ordered()
    ensures { RecursionOrdered }
{}

/// In such an order each position has a place, and what a type mentions has one before the type's own.
pub fn ordered_places()
    ensures { OrderedPlaces }
{}
