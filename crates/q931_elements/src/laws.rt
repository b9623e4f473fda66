// Theorems on the grammar only: these functions do nothing, and their contracts are the theorems.
ghost use Rattle.std.specs.Prelude.{◌≡◌, ℕ, List, map};
ghost use Rattle.std.specs.List.{AllByRecursion};
ghost use Rattle.q931_elements.specs.InformationElement.{InformationElement};
ghost use Rattle.q931_elements.specs.Grammar.{IsElementList, Item, element_of, octets_of_all, IsPresent};
ghost use Rattle.q931_elements.specs.Reading.{elements_of};

/// A string of octets has at most one list of information elements.
pub fn one_reading()
    ensures { (octets : List ℕ) (one other : List InformationElement) → IsElementList octets one → IsElementList octets other → one ≡ other }
{}

/// Each string of octets has a list of information elements, which `elements_of` computes.
pub fn each_string_is_read()
    ensures { (octets : List ℕ) → IsElementList octets (elements_of octets) }
{}

/// Reading consecutive written elements gives the same elements.
pub fn written_is_read()
    ensures { (items : List Item) → AllByRecursion IsPresent items → IsElementList (octets_of_all items) (map element_of items) }
{}
