// What the roles of a portion's tokens say that its fields are.
ghost use Rattle.std.specs.Prelude.{◌≡◌, ◌≤◌, length, take, drop, map, option_map, IfOk, IfErr};
ghost use Rattle.outline_reader.specs.Fields as spec;
ghost use Rattle.outline_reader.specs.Views.{arg_view, input_view, named_view};

use crate::fault::OutlineFault;
use crate::parts::{ArgText, Form, InputText, Name, NamedForm};
use crate::symbols::Role;
use proof_lexer::Token;
use std::alloc::Global;

/// The first tokens, this many where there are so many.
pub fn front<'a>(tokens: &'a [Token<'a>], count: usize) -> &'a [Token<'a>]
    ensures { result.now ≡ take count tokens.now }
{
    if count < tokens.len() {
        &tokens[..count]
    } else {
        tokens
    }
}

/// The tokens behind so many.
pub fn behind<'a>(tokens: &'a [Token<'a>], count: usize) -> &'a [Token<'a>]
    ensures { result.now ≡ drop count tokens.now }
{
    if count < tokens.len() {
        &tokens[count..]
    } else {
        &[]
    }
}

/// How many further tokens of a form come first.
fn more(mut roles: &[Role]) -> usize
    ensures value { result ≡ spec.more roles.entry.now }
    ensures within { result ≤ length roles.entry.now }
{
    let mut count = 0;
    while let [Role::More, rest @ ..] = roles {
        count += 1;
        roles = rest;
    }
    count
}

/// The form that begins with the first token.
pub fn form_here<'a>(roles: &[Role], tokens: &'a [Token<'a>]) -> Form<'a>
    ensures { result.now ≡ spec.form_here roles.now tokens.now }
{
    match roles {
        [] => &[],
        [_, rest @ ..] => front(tokens, more(rest) + 1),
    }
}

/// The first token with the role.
pub fn named<'a>(role: Role, mut roles: &[Role], mut tokens: &'a [Token<'a>]) -> Option<Name<'a>>
    ensures { option_map (λ name. name.now) result ≡ spec.named role roles.entry.now tokens.entry.now }
{
    while let [first, roles_left @ ..] = roles {
        let [token, tokens_left @ ..] = tokens else {
            return None;
        };
        if *first == role {
            return Some(token);
        }
        roles = roles_left;
        tokens = tokens_left;
    }
    None
}

/// The first token with the role, or else the other token.
pub fn name_or<'a>(
    otherwise: Name<'a>,
    role: Role,
    mut roles: &[Role],
    mut tokens: &'a [Token<'a>],
) -> Name<'a>
    ensures { result.now ≡ spec.name_or otherwise.now role roles.entry.now tokens.entry.now }
{
    while let [first, roles_left @ ..] = roles {
        let [token, tokens_left @ ..] = tokens else {
            return otherwise;
        };
        if *first == role {
            return token;
        }
        roles = roles_left;
        tokens = tokens_left;
    }
    otherwise
}

/// The first form whose first token has the role.
pub fn form_if<'a>(role: Role, mut roles: &[Role], mut tokens: &'a [Token<'a>]) -> Option<Form<'a>>
    ensures { option_map (λ form. form.now) result ≡ spec.form_if role roles.entry.now tokens.entry.now }
{
    while let [first, roles_left @ ..] = roles {
        let [token, tokens_left @ ..] = tokens else {
            return None;
        };
        if *first == role {
            return Some(form_here(roles, tokens));
        }
        roles = roles_left;
        tokens = tokens_left;
    }
    None
}

/// The same, and an empty one where there is none.
pub fn form_of<'a>(role: Role, mut roles: &[Role], mut tokens: &'a [Token<'a>]) -> Form<'a>
    ensures { result.now ≡ spec.form_of role roles.entry.now tokens.entry.now }
{
    while let [first, roles_left @ ..] = roles {
        let [token, tokens_left @ ..] = tokens else {
            return &[];
        };
        if *first == role {
            return form_here(roles, tokens);
        }
        roles = roles_left;
        tokens = tokens_left;
    }
    &[]
}

/// The name and the form of a line in the head of a case; the roles and tokens are those behind the name.
fn named_form<'a>(name: Name<'a>, roles: &[Role], tokens: &'a [Token<'a>]) -> NamedForm<'a>
    ensures { named_view result ≡ spec.named_form name.now roles.now tokens.now }
{
    match roles {
        [] => NamedForm { name, form: &[] },
        [_, rest @ ..] => NamedForm {
            name,
            form: form_here(rest, behind(tokens, 1)),
        },
    }
}

/// An input; the roles and tokens are those behind its name.
fn input<'a>(name: Name<'a>, roles: &[Role], tokens: &'a [Token<'a>]) -> InputText<'a>
    ensures { input_view result ≡ spec.input name.now roles.now tokens.now }
{
    match roles {
        [_, Role::Form, ..] => InputText::Given(named_form(name, roles, tokens)),
        _ => InputText::Syntax(name),
    }
}

/// A form without its last token.
fn without_last<'a>(form: Form<'a>) -> Form<'a>
    ensures { result.now ≡ spec.without_last form.now }
{
    match form {
        [] => form,
        [..] => front(form, form.len() - 1),
    }
}

/// Whether the role is that of a premise's first token.
fn is_premise(role: Role) -> bool
    ensures { result ≡ spec.is_premise role }
{
    match role {
        Role::RulePremise | Role::Premise => true,
        _ => false,
    }
}

/// Whether the role is that of an argument's first token.
fn is_arg(role: Role) -> bool
    ensures { result ≡ spec.is_arg role }
{
    match role {
        Role::ArgName | Role::ArgForm => true,
        _ => false,
    }
}

/// The argument that begins with the token.
fn arg<'a>(token: Name<'a>, roles: &[Role], tokens: &'a [Token<'a>]) -> ArgText<'a>
    ensures { arg_view result ≡ spec.arg token.now roles.now tokens.now }
{
    match roles {
        [Role::ArgForm, ..] => ArgText::Form(form_here(roles, tokens)),
        _ => ArgText::Name(token),
    }
}

/// The first argument, or else the other token.
pub fn subject<'a>(
    otherwise: Name<'a>,
    mut roles: &[Role],
    mut tokens: &'a [Token<'a>],
) -> ArgText<'a>
    ensures { arg_view result ≡ spec.subject otherwise.now roles.entry.now tokens.entry.now }
{
    while let [first, roles_left @ ..] = roles {
        let [token, tokens_left @ ..] = tokens else {
            return ArgText::Name(otherwise);
        };
        if is_arg(*first) {
            return arg(token, roles, tokens);
        }
        roles = roles_left;
        tokens = tokens_left;
    }
    ArgText::Name(otherwise)
}

/// The conclusion in the head of a case, or else the other token with no form.
pub fn head_conclusion<'a>(
    otherwise: Name<'a>,
    mut roles: &[Role],
    mut tokens: &'a [Token<'a>],
) -> NamedForm<'a>
    ensures { named_view result ≡ spec.head_conclusion otherwise.now roles.entry.now tokens.entry.now }
{
    while let [first, roles_left @ ..] = roles {
        let [token, tokens_left @ ..] = tokens else {
            return NamedForm {
                name: otherwise,
                form: &[],
            };
        };
        if *first == Role::HeadConclusion {
            return named_form(token, roles_left, tokens_left);
        }
        roles = roles_left;
        tokens = tokens_left;
    }
    NamedForm {
        name: otherwise,
        form: &[],
    }
}

/// The tokens with the role.
pub fn all_named<'a>(
    alloc: Global,
    role: Role,
    mut roles: &[Role],
    mut tokens: &'a [Token<'a>],
) -> Result<Vec<Name<'a>>, OutlineFault>
    ensures ok { IfOk result (λ names. map (λ name. name.now) names.items ≡ spec.all_named role roles.entry.now tokens.entry.now) }
    ensures err { IfErr result (λ e. e ≡ OutlineFault.NoMemory) }
{
    let mut names = Vec::new(alloc);
    while let [first, roles_left @ ..] = roles {
        let [token, tokens_left @ ..] = tokens else {
            return Ok(names);
        };
        if *first == role {
            names.push(token)?;
        }
        roles = roles_left;
        tokens = tokens_left;
    }
    Ok(names)
}

/// The forms whose first token has the role.
pub fn forms<'a>(
    alloc: Global,
    role: Role,
    mut roles: &[Role],
    mut tokens: &'a [Token<'a>],
) -> Result<Vec<Form<'a>>, OutlineFault>
    ensures ok { IfOk result (λ forms. map (λ form. form.now) forms.items ≡ spec.forms role roles.entry.now tokens.entry.now) }
    ensures err { IfErr result (λ e. e ≡ OutlineFault.NoMemory) }
{
    let mut forms = Vec::new(alloc);
    while let [first, roles_left @ ..] = roles {
        let [token, tokens_left @ ..] = tokens else {
            return Ok(forms);
        };
        if *first == role {
            forms.push(form_here(roles, tokens))?;
        }
        roles = roles_left;
        tokens = tokens_left;
    }
    Ok(forms)
}

/// The premises of a rule.
pub fn premises<'a>(
    alloc: Global,
    mut roles: &[Role],
    mut tokens: &'a [Token<'a>],
) -> Result<Vec<Form<'a>>, OutlineFault>
    ensures ok { IfOk result (λ forms. map (λ form. form.now) forms.items ≡ spec.premises roles.entry.now tokens.entry.now) }
    ensures err { IfErr result (λ e. e ≡ OutlineFault.NoMemory) }
{
    let mut forms = Vec::new(alloc);
    while let [first, roles_left @ ..] = roles {
        let [token, tokens_left @ ..] = tokens else {
            return Ok(forms);
        };
        if is_premise(*first) {
            forms.push(form_here(roles, tokens))?;
        }
        roles = roles_left;
        tokens = tokens_left;
    }
    Ok(forms)
}

/// The conclusions of a theorem: each without the dot that ends it.
pub fn outputs<'a>(
    alloc: Global,
    mut roles: &[Role],
    mut tokens: &'a [Token<'a>],
) -> Result<Vec<Form<'a>>, OutlineFault>
    ensures ok { IfOk result (λ forms. map (λ form. form.now) forms.items ≡ spec.outputs roles.entry.now tokens.entry.now) }
    ensures err { IfErr result (λ e. e ≡ OutlineFault.NoMemory) }
{
    let mut forms = Vec::new(alloc);
    while let [first, roles_left @ ..] = roles {
        let [token, tokens_left @ ..] = tokens else {
            return Ok(forms);
        };
        if *first == Role::Output {
            forms.push(without_last(form_here(roles, tokens)))?;
        }
        roles = roles_left;
        tokens = tokens_left;
    }
    Ok(forms)
}

/// The premises in the head of a case.
pub fn named_forms<'a>(
    alloc: Global,
    mut roles: &[Role],
    mut tokens: &'a [Token<'a>],
) -> Result<Vec<NamedForm<'a>>, OutlineFault>
    ensures ok { IfOk result (λ forms. map named_view forms.items ≡ spec.named_forms roles.entry.now tokens.entry.now) }
    ensures err { IfErr result (λ e. e ≡ OutlineFault.NoMemory) }
{
    let mut forms = Vec::new(alloc);
    while let [first, roles_left @ ..] = roles {
        let [token, tokens_left @ ..] = tokens else {
            return Ok(forms);
        };
        if *first == Role::HeadName {
            forms.push(named_form(token, roles_left, tokens_left))?;
        }
        roles = roles_left;
        tokens = tokens_left;
    }
    Ok(forms)
}

/// The inputs of a theorem.
pub fn inputs<'a>(
    alloc: Global,
    mut roles: &[Role],
    mut tokens: &'a [Token<'a>],
) -> Result<Vec<InputText<'a>>, OutlineFault>
    ensures ok { IfOk result (λ inputs. map input_view inputs.items ≡ spec.inputs roles.entry.now tokens.entry.now) }
    ensures err { IfErr result (λ e. e ≡ OutlineFault.NoMemory) }
{
    let mut inputs = Vec::new(alloc);
    while let [first, roles_left @ ..] = roles {
        let [token, tokens_left @ ..] = tokens else {
            return Ok(inputs);
        };
        if *first == Role::InputName {
            inputs.push(input(token, roles_left, tokens_left))?;
        }
        roles = roles_left;
        tokens = tokens_left;
    }
    Ok(inputs)
}

/// The arguments of a justification.
pub fn args<'a>(
    alloc: Global,
    mut roles: &[Role],
    mut tokens: &'a [Token<'a>],
) -> Result<Vec<ArgText<'a>>, OutlineFault>
    ensures ok { IfOk result (λ args. map arg_view args.items ≡ spec.args roles.entry.now tokens.entry.now) }
    ensures err { IfErr result (λ e. e ≡ OutlineFault.NoMemory) }
{
    let mut args = Vec::new(alloc);
    while let [first, roles_left @ ..] = roles {
        let [token, tokens_left @ ..] = tokens else {
            return Ok(args);
        };
        if is_arg(*first) {
            args.push(arg(token, roles, tokens))?;
        }
        roles = roles_left;
        tokens = tokens_left;
    }
    Ok(args)
}

/// How many tokens come before the next `|`.
fn production_length(mut roles: &[Role]) -> usize
    ensures { result ≡ spec.production_length roles.entry.now }
{
    let mut count = 0;
    while let [first, rest @ ..] = roles {
        if *first == Role::Or {
            return count;
        }
        count += 1;
        roles = rest;
    }
    count
}

/// The productions of a category: the tokens behind its `::=`, divided at each `|`.
pub fn productions<'a>(
    alloc: Global,
    mut roles: &[Role],
    mut tokens: &'a [Token<'a>],
) -> Result<Vec<Form<'a>>, OutlineFault>
    ensures ok { IfOk result (λ forms. map (λ form. form.now) forms.items ≡ spec.productions roles.entry.now tokens.entry.now) }
    ensures err { IfErr result (λ e. e ≡ OutlineFault.NoMemory) }
{
    let mut forms = Vec::new(alloc);
    forms.push(front(tokens, production_length(roles)))?;
    while let [first, roles_left @ ..] = roles {
        let [_, tokens_left @ ..] = tokens else {
            return Ok(forms);
        };
        if *first == Role::Or {
            forms.push(front(tokens_left, production_length(roles_left)))?;
        }
        roles = roles_left;
        tokens = tokens_left;
    }
    Ok(forms)
}
