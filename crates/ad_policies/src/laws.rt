//! Laws of policies. Each is the contract of a function that does nothing.

ghost use Rattle.std.specs.Prelude.{◌≡◌, ◌≢◌, ℕ};
ghost use Rattle.ad_dir_model.specs.Directory.{Directory};
ghost use Rattle.ad_dir_model.specs.Objects.{parent_at};
ghost use Rattle.ad_dir_model.specs.Tree.{root};
ghost use Rattle.ad_policies.specs.Policies.{above, policies_of};

/// Above two objects with one parent stand the same containers, and the same policies count for them.
pub fn a_container_s_objects_have_the_same_policies()
    ensures above { (dir : Directory) (a b : ℕ) → a ≢ root → b ≢ root
        → parent_at dir.objects a ≡ parent_at dir.objects b → above dir a ≡ above dir b }
    ensures policies { (dir : Directory) (a b : ℕ) → a ≢ root → b ≢ root
        → parent_at dir.objects a ≡ parent_at dir.objects b → policies_of dir a ≡ policies_of dir b }
{}
