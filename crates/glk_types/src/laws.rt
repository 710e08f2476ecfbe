// What holds of all type data: laws of the definitions, which are proved with these functions and
// cost nothing when they run.
ghost use Rattle.glk_types.specs.Laws.{HeaderFaultsAreOfRules, MethodsFaultsAreOfRules, ImethodFaultsAreOfRules, IsTypeLayout, IsUncommonLayout, IsMethodLayout, IsInterfaceLayout, AreKinds};

/// The fault of each reading is the broken rule of least number, with the offset that this rule
/// reports, and there is none exactly where all rules of the reading are kept.
pub fn faults_are_of_rules()
    ensures header { HeaderFaultsAreOfRules }
    ensures methods { MethodsFaultsAreOfRules }
    ensures imethod { ImethodFaultsAreOfRules }
{}

/// The constants are the layout's.
pub fn constants_are_of_layout()
    ensures types { IsTypeLayout }
    ensures uncommon { IsUncommonLayout }
    ensures methods { IsMethodLayout }
    ensures interfaces { IsInterfaceLayout }
    ensures kinds { AreKinds }
{}
