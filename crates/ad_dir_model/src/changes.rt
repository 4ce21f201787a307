//! Laws of changes. Each is the contract of a function that does nothing. What a change asks for is in
//! `specs/Conditions.antt`; the limits are among it, and are asked by whoever makes the change.

ghost use Rattle.std.specs.Prelude.{◌≡◌, ◌≢◌, ℕ, List, true};
ghost use Rattle.ad_inherit.specs.Whole.{explicit_part};
ghost use Rattle.ad_dir_model.specs.Object.{Object};
ghost use Rattle.ad_dir_model.specs.Objects.{is_live, object_at};
ghost use Rattle.ad_dir_model.specs.Tree.{root};
ghost use Rattle.ad_dir_model.specs.Directory.{Directory};
ghost use Rattle.ad_dir_model.specs.Inheritance.{IsSettledOrCovered, stored, written};
ghost use Rattle.ad_dir_model.specs.Changes.{changed, renamed_object, renamed, added, deleted};
ghost use Rattle.ad_dir_model.specs.Soundness.{IsSound};
ghost use Rattle.ad_dir_model.specs.Conditions.{MayReplace, KeepsParent, KeepsDescriptor, KeepsTree, MayMove};
ghost use Rattle.ad_dir_model.specs.Conditions.{MayBeAdded};

/// Other values or another naming value, with the descriptor from before.
pub fn a_write_of_values_keeps_a_directory_sound()
    ensures { (dir : Directory) (o : Object) → IsSound dir → MayReplace dir o → KeepsParent dir o
        → KeepsDescriptor dir o → IsSound (changed dir o) }
{}

/// Another descriptor, and perhaps other values: the object gets its whole, and is marked where its descriptor
/// changed.
pub fn a_write_of_a_descriptor_keeps_a_directory_sound()
    ensures { (dir : Directory) (o : Object) → IsSound dir → MayReplace dir o → KeepsParent dir o
        → IsSound (written dir o) }
{}

/// A descriptor that is put as it is, where the object is settled or covered with it.
pub fn a_descriptor_that_is_settled_keeps_a_directory_sound()
    ensures { (dir : Directory) (o : Object) → IsSound dir → MayReplace dir o → KeepsParent dir o
        → (o.number ≡ root → explicit_part o.sd ≡ o.sd)
        → (o.number ≢ root → IsSettledOrCovered (stored dir o) o)
        → IsSound (stored dir o) }
{}

/// Another parent, and perhaps another naming value.
pub fn a_move_keeps_a_directory_sound()
    ensures { (dir : Directory) (o : Object) → IsSound dir → MayReplace dir o → MayMove dir o
        → IsSound (written dir o) }
{}

/// A rename in place or below another parent.
pub fn a_rename_keeps_a_directory_sound()
    ensures { (dir : Directory) (number parent : ℕ) (name : List ℕ) → IsSound dir
        → is_live dir.objects number ≡ true → MayReplace dir
        (renamed_object (object_at dir.objects number) parent name)
        → ((object_at dir.objects number).parent ≢ parent
        → MayMove dir (renamed_object (object_at dir.objects number) parent name))
        → IsSound (renamed dir number parent name) }
{}

/// An object more.
pub fn an_addition_keeps_a_directory_sound()
    ensures { (dir : Directory) (o : Object) → IsSound dir → MayBeAdded dir o
        → IsSound (added dir o) }
{}

/// A subtree less, with its links and its pending entries.
pub fn a_deletion_keeps_a_directory_sound()
    ensures { (dir : Directory) (number : ℕ) → IsSound dir → number ≢ root
        → IsSound (deleted dir number) }
{}

/// What a move asks of the tree, from the depths before it: the new parent isn't the object nor below it, and none
/// of those that move is too deep there.
pub fn a_move_keeps_the_tree()
    ensures { (dir : Directory) (o : Object) → IsSound dir → KeepsTree dir o → MayMove dir o }
{}
