ghost use Rattle.rule_schemes.specs.Lambda.{lambda};
ghost use Rattle.user_grammar.specs.Grammar.{IsSignatureOf};
ghost use Rattle.user_grammar.specs.Lambda.{lambda_file};

use rule_schemes::lambda_is_a_system;

/// The file of the typed lambda calculus, which has a variable, a binder, brackets and a context, stands for its signature.
pub fn lambda_stands_for_its_signature()
    ensures { IsSignatureOf lambda_file lambda }
{
    lambda_is_a_system();
}
